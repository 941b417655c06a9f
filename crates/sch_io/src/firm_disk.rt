//! A disk in memory that never fails.

ghost use Rattle.std.specs.Prelude.{◌≡◌, ◌≤◌, ◌<◌, ◌+◌, [], ℕ, Some, None, length, IfOk, IfSome, IsErr, IsErrOf, IsNone, IsOk, IsSomeAnd, OnErr, OnOk, false};
ghost use Rattle.std.specs.Option.{unwrap_or};
ghost use Rattle.std.specs.FinMap.{empty, get};
ghost use Rattle.sch_io.specs.Counters.{Rose, raised};
ghost use Rattle.sch_io.specs.Files.{Replaces, Spoils, written};
ghost use Rattle.sch_io.specs.Told.{Tells};

use crate::disk::{Disk, DiskRead, Failed};
use crate::mem_disk::MemDisk;
use sch_word::{Bytes, Mem};
use std::alloc::Global;

/// A disk that holds its files in memory and never fails. A name that is not there is read as the empty
/// file, and a file for which there is no room is dropped: from then on the disk tells nothing.
#[derive(Drop)]
pub struct FirmDisk {
    disk: MemDisk,
    tells: bool,
    ghost firm: { disk.failing.items ≡ [] },
}

impl FirmDisk {
    ghost use Rattle.sch_io.specs.InMemory.{bytes_left, writes_left};
    ghost use Rattle.sch_io.specs.Firm.{calls_taken, stored_on, told_firmly};

    /// A disk with these files, of which a later one replaces an earlier one of its name, and with room
    /// for `room` bytes of names and contents in 4,096 writes.
    pub fn new(alloc: Global, files: &[(Bytes, Bytes)], room: u64) -> Result<FirmDisk, Mem>
        ensures files { IfOk result (λ disk. told_firmly disk ≡ Some (written empty files.now)) }
        ensures room { IfOk result (λ disk. bytes_left (stored_on disk) ≡ room) }
        ensures writes { IfOk result (λ disk. writes_left (stored_on disk) ≡ 4096) }
        ensures calls { IfOk result (λ disk. calls_taken disk ≡ 0) }
    {
        Ok(FirmDisk {
            disk: MemDisk::new(alloc, files, room, &[])?,
            tells: true,
        })
    }
}

impl Disk for FirmDisk {
    ghost use Rattle.sch_io.specs.InMemory.{LacksRoomFor, SameRoom, bytes_left, writes_left};
    ghost use Rattle.sch_io.specs.Firm.{calls_taken, is_telling, no_faults, stored_files, stored_on, told_firmly};

    ghost files = { told_firmly };

    ghost faults = { no_faults };

    ghost calls = { calls_taken };

    fn read(&mut self, alloc: Global, name: &str, limit: u64) -> Result<Bytes, DiskRead>
        ensures unchanged { Tells (told_firmly self.old) (told_firmly self.new) (λ before after. after ≡ before) }
        ensures found { IfOk result (λ bytes. IfSome (told_firmly self.new) (λ all. get all name.now ≡ Some bytes)) }
        ensures within { IfOk result (λ bytes. length bytes ≤ limit) }
        ensures too_large { IsErrOf result DiskRead.TooLarge → IfSome (told_firmly self.new) (λ all. IsSomeAnd (get all name.now) (λ bytes. limit < length bytes)) }
        ensures faults { no_faults self.old ≤ no_faults self.new }
        ensures failed_only_where_faults_rose { IsErrOf result DiskRead.Failed → Rose (no_faults self.old) (no_faults self.new) }
        ensures calls { calls_taken self.new ≡ raised (calls_taken self.old) }

        // It never fails. What is read is the file that is stored, also where it is not told, or the empty one.
        ensures never { ¬ IsErrOf result DiskRead.Failed }
        ensures bytes { IfOk result (λ bytes. bytes ≡ unwrap_or (get (stored_files self.old) name.now) []) }
        ensures stored { stored_files self.new ≡ stored_files self.old }
        ensures room { SameRoom (stored_on self.old) (stored_on self.new) }

        // It tells as before, unless the name is not there: then it answers the empty file, and tells nothing.
        ensures absent { IsNone (get (stored_files self.old) name.now) → IsOk result × (is_telling self.new ≡ false) }
        ensures present { ¬ IsNone (get (stored_files self.old) name.now) → is_telling self.new ≡ is_telling self.old }
    {
        match self.disk.read(alloc, name, limit) {
            Err(DiskRead::Failed) => {
                self.tells = false;
                Ok(Bytes::new(alloc))
            }
            answer => answer,
        }
    }

    fn write(&mut self, name: &str, bytes: &[u8]) -> Result<(), Failed>
        ensures ok { OnOk result (Tells (told_firmly self.old) (told_firmly self.new) (Replaces name.now bytes.now)) }
        ensures err { OnErr result (Tells (told_firmly self.old) (told_firmly self.new) (Spoils name.now)) }
        ensures faults { no_faults self.old ≤ no_faults self.new }
        ensures failed_only_where_faults_rose { IsErr result → Rose (no_faults self.old) (no_faults self.new) }
        ensures calls { calls_taken self.new ≡ raised (calls_taken self.old) }

        // It never fails. A file for which there is no room is dropped, and then the disk tells nothing.
        ensures never { IsOk result }
        ensures dropped { LacksRoomFor (stored_on self.old) (length name.now + length bytes.now) →
            (stored_files self.new ≡ stored_files self.old) × (is_telling self.new ≡ false) × SameRoom (stored_on self.old) (stored_on self.new) }

        // Any other replaces the one of its name, is told as before, and takes room.
        ensures taken { ¬ LacksRoomFor (stored_on self.old) (length name.now + length bytes.now) →
            Replaces name.now bytes.now (stored_files self.old) (stored_files self.new) × (is_telling self.new ≡ is_telling self.old) }
        ensures bytes { ¬ LacksRoomFor (stored_on self.old) (length name.now + length bytes.now) →
            bytes_left (stored_on self.new) + (length name.now + length bytes.now) ≡ bytes_left (stored_on self.old) }
        ensures writes { ¬ LacksRoomFor (stored_on self.old) (length name.now + length bytes.now) →
            writes_left (stored_on self.new) + 1 ≡ writes_left (stored_on self.old) }
    {
        if self.disk.write(name, bytes).is_err() {
            self.tells = false;
        }
        Ok(())
    }
}
