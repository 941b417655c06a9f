//! Reads the file that a command names, and writes its target and its listing.

ghost use Rattle.std.specs.Prelude.{◌≡◌, ◌≤◌, IfErr, IfOk, OnErr, OnOk};
ghost use Rattle.sch_io.specs.Files.{Replaces, Spoils};
ghost use Rattle.sch_cli.specs.Files.{HasRead, IsUnread, WritesBoth};
ghost use Rattle.sch_cli.specs.Seen.{DiskFailed, FilesChange, HadAtMostCalls, HadCalls, SameFiles, disk_change};

use crate::failure::Failure;
use sch_io::{Disk, DiskRead};
use sch_word::Bytes;
use std::alloc::Global;

/// The bytes of a file of at most `limit` bytes, or why it is not read. One call of the disk is made.
pub fn read_file<D: Disk>(
    alloc: Global,
    disk: &mut D,
    name: &str,
    limit: u64,
) -> Result<Bytes, Failure>
    ensures read { IfOk result (λ bytes. HasRead name.now limit bytes (disk_change D.files D.faults D.calls disk.old disk.new)) }
    ensures failed { IfErr result (λ failure. IsUnread name.now limit failure (disk_change D.files D.faults D.calls disk.old disk.new)) }
    ensures faults { D.faults disk.old ≤ D.faults disk.new }
    ensures unchanged { SameFiles (disk_change D.files D.faults D.calls disk.old disk.new) }
    ensures calls { HadCalls 1 (disk_change D.files D.faults D.calls disk.old disk.new) }
    ensures few_calls { HadAtMostCalls 1 (disk_change D.files D.faults D.calls disk.old disk.new) }
{
    match disk.read(alloc, name, limit) {
        Ok(bytes) => Ok(bytes),
        Err(DiskRead::Failed) => Err(Failure::ReadFailed),
        Err(DiskRead::TooLarge) => Err(Failure::TooLong),
        Err(DiskRead::Memory) => Err(Failure::Memory),
    }
}

/// Replaces a file. One call of the disk is made.
pub fn write_file<D: Disk>(disk: &mut D, name: &str, bytes: &[u8]) -> Result<(), Failure>
    ensures ok { OnOk result (FilesChange (disk_change D.files D.faults D.calls disk.old disk.new) (Replaces name.now bytes.now)) }
    ensures err { OnErr result (FilesChange (disk_change D.files D.faults D.calls disk.old disk.new) (Spoils name.now)) }
    ensures failed { OnErr result (DiskFailed (disk_change D.files D.faults D.calls disk.old disk.new)) }
    ensures only { IfErr result (λ failure. failure ≡ Failure.WriteFailed) }
    ensures faults { D.faults disk.old ≤ D.faults disk.new }
    ensures calls { HadCalls 1 (disk_change D.files D.faults D.calls disk.old disk.new) }
{
    match disk.write(name, bytes) {
        Ok(()) => Ok(()),
        Err(_) => Err(Failure::WriteFailed),
    }
}

/// Replaces a target, and then the file of its listing by this text. Where the first fails the second is left alone.
pub fn write_both<D: Disk>(
    disk: &mut D,
    target: &str,
    file: &[u8],
    listing: &str,
    text: &[u8],
) -> Result<(), Failure>
    ensures { WritesBoth target.now file.now listing.now text.now (disk_change D.files D.faults D.calls disk.old disk.new) result }
{
    write_file(disk, target, file)?;
    match disk.write(listing, text) {
        Ok(()) => Ok(()),
        Err(_) => Err(Failure::ListingFailed),
    }
}
