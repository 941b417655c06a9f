//! Disks and outlets: that calls succeed, and what the host's files and streams do.

use sch_io::{
    Disk, DiskRead, Failed, FirmDisk, HostDisk, MemDisk, MemOutlet, NullOutlet, Outlet, StdOutlet,
    put_all,
};
use sch_word::{Answer, Bytes, Mem};
use std::alloc::Global;
use std::fs;
use std::fs::{File, OpenOptions};
use std::test::Fail;

// Whether a file is read within a limit and holds these bytes.
fn holds<D: Disk>(alloc: Global, disk: &mut D, name: &str, limit: u64, bytes: &[u8]) -> bool {
    match disk.read(alloc, name, limit) {
        Ok(file) => file.as_slice() == bytes,
        Err(_) => false,
    }
}

// Whether a file is longer than a limit.
fn is_too_large<D: Disk>(alloc: Global, disk: &mut D, name: &str, limit: u64) -> bool {
    matches!(disk.read(alloc, name, limit), Err(DiskRead::TooLarge))
}

// Whether a file is not read.
fn is_absent<D: Disk>(alloc: Global, disk: &mut D, name: &str) -> bool {
    matches!(disk.read(alloc, name, 3), Err(DiskRead::Failed))
}

// Whether a file is written.
fn writes<D: Disk>(disk: &mut D, name: &str, bytes: &[u8]) -> bool {
    match disk.write(name, bytes) {
        Ok(()) => true,
        Err(Failed) => false,
    }
}

// Whether all of a piece is taken.
fn takes<O: Outlet>(out: &mut O, piece: &[u8]) -> bool {
    put_all(out, piece)
}

// A disk whose file `a` has three bytes.
fn small_disk(alloc: Global) -> Result<MemDisk, Mem> {
    let name = Bytes::from_slice(alloc, b"a")?;
    let file = Bytes::from_slice(alloc, b"xyz")?;
    MemDisk::new(alloc, &[(name, file)], 10, &[])
}

#[test]
fn a_disk_in_memory_is_read_and_written(rt: HostRuntime) -> Result<(), Fail> {
    let mut disk = small_disk(rt.alloc())?;
    assert!(rt; holds(rt.alloc(), &mut disk, "a", 3, b"xyz"));
    assert!(rt; writes(&mut disk, "b", b"1234"));
    assert!(rt; holds(rt.alloc(), &mut disk, "b", 4, b"1234"));
    Ok(())
}

// A name that is not there is read as the empty file, and a file without room is dropped.
#[test]
fn a_firm_disk_never_fails(rt: HostRuntime) -> Result<(), Fail> {
    let mut disk = FirmDisk::new(rt.alloc(), &[], 5)?;
    assert!(rt; writes(&mut disk, "a", b"1234"));
    assert!(rt; holds(rt.alloc(), &mut disk, "a", 4, b"1234"));
    assert!(rt; is_too_large(rt.alloc(), &mut disk, "a", 3));
    assert!(rt; writes(&mut disk, "b", b""));
    assert!(rt; holds(rt.alloc(), &mut disk, "b", 4, b""));
    Ok(())
}

#[test]
fn an_outlet_in_memory_answers_by_its_plan(rt: HostRuntime) -> Result<(), Fail> {
    let plan = [Answer::Took(1), Answer::Took(9)];
    let mut outlet = MemOutlet::new(rt.alloc(), &plan, 4)?;
    assert!(rt; takes(&mut outlet, b"abc"));
    assert!(rt; outlet.taken() == b"abc".as_slice());
    assert!(rt; takes(&mut NullOutlet::new(), b"abc"));
    Ok(())
}

// Whether a file of the host holds these bytes.
fn is_on_host(rt: &HostRuntime, name: &str, bytes: &[u8]) -> bool {
    match fs::read(rt, name) {
        Ok(file) => file.as_slice() == bytes,
        Err(_) => false,
    }
}

#[test]
fn the_hosts_files_are_read_and_written(rt: HostRuntime) -> Result<(), Fail> {
    let mut disk = HostDisk::new(&rt);
    assert!(rt; writes(&mut disk, "io-test-file", b"xyz"));
    assert!(rt; is_on_host(&rt, "io-test-file", b"xyz"));
    assert!(rt; holds(rt.alloc(), &mut disk, "io-test-file", 3, b"xyz"));
    assert!(rt; is_too_large(rt.alloc(), &mut disk, "io-test-file", 2));
    fs::remove_file(&rt, "io-test-file")?;
    assert!(rt; is_absent(rt.alloc(), &mut disk, "io-test-file"));
    assert!(rt; !writes(&mut disk, "/dev/full", b"xyz"));
    Ok(())
}

#[test]
fn the_hosts_streams_take_bytes_and_may_fail(rt: HostRuntime) -> Result<(), Fail> {
    let mut outlet = StdOutlet::new(File::create(&rt, "io-test-stream")?);
    assert!(rt; takes(&mut outlet, b"abc"));
    assert!(rt; is_on_host(&rt, "io-test-stream", b"abc"));
    fs::remove_file(&rt, "io-test-stream")?;
    assert!(rt; takes(&mut StdOutlet::new(rt.stdout()), b""));
    let full = OpenOptions::new().write(true).open(&rt, "/dev/full")?;
    assert!(rt; !takes(&mut StdOutlet::new(full), b"abc"));
    Ok(())
}
