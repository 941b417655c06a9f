//! Disks.

ghost use Rattle.std.specs.Prelude.{◌≡◌, ◌≤◌, ◌<◌, ℕ, Option, length, IfOk, OnOk, OnErr, IsErr, IsErrOf, IfSome, IsSomeAnd, Some};
ghost use Rattle.std.specs.FinMap.{get};
ghost use Rattle.sch_io.specs.Counters.{Rose, raised};
ghost use Rattle.sch_io.specs.Files.{Files, Replaces, Spoils};
ghost use Rattle.sch_io.specs.Told.{Tells};

use sch_word::Bytes;
use std::alloc::Global;
use thiserror::Error;

/// Why a file was not read.
#[derive(Clone, Copy, Debug, Error)]
pub enum DiskRead {
    /// The disk failed. A file that is not there is read so too.
    #[error("read failed")]
    Failed,
    /// The file is longer than the limit.
    #[error("too large")]
    TooLarge,
    /// There was no memory for the file's bytes.
    #[error("out of memory")]
    Memory,
}

/// A file was not written.
#[derive(Clone, Copy, Debug, Error)]
#[error("write failed")]
pub struct Failed;

/// A disk holds files by name. It may tell which files it holds; one that has ceased to tell does not
/// tell again.
pub trait Disk {
    /// The files, where the disk tells them.
    ghost files: { Self → Option Files };

    /// How often the disk has failed.
    ghost faults: { Self → ℕ };

    /// How many calls the disk has had.
    ghost calls: { Self → ℕ };

    /// The bytes of the file `name`, which has at most `limit` bytes. No file changes.
    fn read(&mut self, alloc: Global, name: &str, limit: u64) -> Result<Bytes, DiskRead>
        ensures unchanged { Tells (files self.old) (files self.new) (λ before after. after ≡ before) }
        ensures found { IfOk result (λ bytes. IfSome (files self.new) (λ all. get all name.now ≡ Some bytes)) }
        ensures within { IfOk result (λ bytes. length bytes ≤ limit) }
        ensures too_large { IsErrOf result DiskRead.TooLarge → IfSome (files self.new) (λ all. IsSomeAnd (get all name.now) (λ bytes. limit < length bytes)) }

        ensures faults { faults self.old ≤ faults self.new }
        ensures failed_only_where_faults_rose { IsErrOf result DiskRead.Failed → Rose (faults self.old) (faults self.new) }
        ensures calls { calls self.new ≡ raised (calls self.old) };

    /// Replaces the file `name` by `bytes`. A failure may leave any bytes in that file, and leaves
    /// every other file as it was.
    fn write(&mut self, name: &str, bytes: &[u8]) -> Result<(), Failed>
        ensures ok { OnOk result (Tells (files self.old) (files self.new) (Replaces name.now bytes.now)) }
        ensures err { OnErr result (Tells (files self.old) (files self.new) (Spoils name.now)) }

        ensures faults { faults self.old ≤ faults self.new }
        ensures failed_only_where_faults_rose { IsErr result → Rose (faults self.old) (faults self.new) }
        ensures calls { calls self.new ≡ raised (calls self.old) };
}
