//! A disk over the files of the host.

ghost use Rattle.std.specs.Prelude.{◌≡◌, ◌≢◌, ◌≤◌, ◌<◌, ◌↔◌, Some, length, IfOk, IfSome, IsErr, IsErrOf, IsOk, IsSomeAnd, OnErr, OnOk};
ghost use Rattle.std.specs.FinMap.{get};
ghost use Rattle.std.specs.IoError.{error_kind};
ghost use Rattle.sch_io.specs.Counters.{Rose, raised};
ghost use Rattle.sch_io.specs.Files.{Replaces, Spoils};
ghost use Rattle.sch_io.specs.Told.{Tells};

use crate::counter::raise;
use crate::disk::{Disk, DiskRead, Failed};
use sch_word::Bytes;
use std::alloc::Global;
use std::fs;
use std::io::{Error, ErrorKind, Read};
use std::rt::Files;

/// A disk over the files of the host. It tells no content.
#[derive(Drop)]
pub struct HostDisk<'a, R> {
    host: &'a R,
    calls: u64,
    faults: u64,
}

impl<'a, R: Files> HostDisk<'a, R> {
    ghost use Rattle.sch_io.specs.OnHost.{calls_made, calls_failed};

    /// A disk that has had no call.
    pub fn new(host: &'a R) -> HostDisk<'a, R>
        ensures calls { calls_made result ≡ 0 }
        ensures faults { calls_failed result ≡ 0 }
    {
        HostDisk {
            host,
            calls: 0,
            faults: 0,
        }
    }
}

impl<'a, R: Files> Disk for HostDisk<'a, R> {
    ghost use Rattle.sch_io.specs.OnHost.{calls_made, calls_failed, untold_files};

    ghost files = { untold_files };

    ghost faults = { calls_failed };

    ghost calls = { calls_made };

    fn read(&mut self, alloc: Global, name: &str, limit: u64) -> Result<Bytes, DiskRead>
        ensures unchanged { Tells (untold_files self.old) (untold_files self.new) (λ before after. after ≡ before) }
        ensures found { IfOk result (λ bytes. IfSome (untold_files self.new) (λ all. get all name.now ≡ Some bytes)) }
        ensures within { IfOk result (λ bytes. length bytes ≤ limit) }
        ensures too_large { IsErrOf result DiskRead.TooLarge → IfSome (untold_files self.new) (λ all. IsSomeAnd (get all name.now) (λ bytes. limit < length bytes)) }
        ensures faults { calls_failed self.old ≤ calls_failed self.new }
        ensures failed_only_where_faults_rose { IsErrOf result DiskRead.Failed → Rose (calls_failed self.old) (calls_failed self.new) }
        ensures calls { calls_made self.new ≡ raised (calls_made self.old) }

        // A failure is one fault, and no other read is one.
        ensures one_fault { IsErrOf result DiskRead.Failed → calls_failed self.new ≡ raised (calls_failed self.old) }
        ensures no_fault { ¬ IsErrOf result DiskRead.Failed → calls_failed self.new ≡ calls_failed self.old }
    {
        raise(&mut self.calls);
        match fetched(self.host, alloc, name, limit) {
            Err(DiskRead::Failed) => {
                raise(&mut self.faults);
                Err(DiskRead::Failed)
            }
            answer => answer,
        }
    }

    fn write(&mut self, name: &str, bytes: &[u8]) -> Result<(), Failed>
        ensures ok { OnOk result (Tells (untold_files self.old) (untold_files self.new) (Replaces name.now bytes.now)) }
        ensures err { OnErr result (Tells (untold_files self.old) (untold_files self.new) (Spoils name.now)) }
        ensures faults { calls_failed self.old ≤ calls_failed self.new }
        ensures failed_only_where_faults_rose { IsErr result → Rose (calls_failed self.old) (calls_failed self.new) }
        ensures calls { calls_made self.new ≡ raised (calls_made self.old) }

        // A failure is one fault, and no other write is one.
        ensures one_fault { IsErr result → calls_failed self.new ≡ raised (calls_failed self.old) }
        ensures no_fault { IsOk result → calls_failed self.new ≡ calls_failed self.old }
    {
        raise(&mut self.calls);
        match fs::write(self.host, name, bytes) {
            Ok(()) => Ok(()),
            Err(_) => {
                raise(&mut self.faults);
                Err(Failed)
            }
        }
    }
}

// The bytes of a file of the host, of which there are at most `limit`.
fn fetched<R: Files>(host: &R, alloc: Global, name: &str, limit: u64) -> Result<Bytes, DiskRead>
    ensures { IfOk result (λ bytes. length bytes ≤ limit) }
{
    let file = match fs::open(host, name) {
        Ok(file) => file,
        Err(error) => return Err(cause(&error)),
    };
    let mut bytes = Vec::new(alloc);
    if let Err(error) = file.take(limit.saturating_add(1)).read_to_end(&mut bytes) {
        return Err(cause(&error));
    }
    if bytes.len() as u64 > limit {
        return Err(DiskRead::TooLarge);
    }
    Ok(Bytes::from_vec(bytes))
}

// What the host's error is to a reader: out of memory, or else a failure.
fn cause(error: &Error) -> DiskRead
    ensures memory { (result ≡ DiskRead.Memory) ↔ (error_kind error.now ≡ ErrorKind.OutOfMemory) }
    ensures too_large { result ≢ DiskRead.TooLarge }
{
    if error.kind() == ErrorKind::OutOfMemory {
        DiskRead::Memory
    } else {
        DiskRead::Failed
    }
}
