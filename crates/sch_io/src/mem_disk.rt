//! A disk in memory.

ghost use Rattle.std.specs.Prelude.{◌≡◌, ◌≤◌, ◌<◌, ◌+◌, ◌++◌, ◌↔◌, ◌⊎◌, [], ◌∷◌, ℕ, List, Some, None, map, length, vec_len, vec_capacity, All, IfOk, IfSome};
ghost use Rattle.std.specs.Prelude.{IsSomeAnd, IsErr, IsErrOf, IsNone, IsOk, IsTrue, OnOk, OnErr};
ghost use Rattle.std.specs.Bool.{OnTrue, OnFalse};
ghost use Rattle.std.specs.Option.{option_map};
ghost use Rattle.std.specs.FinMap.{get, empty};
ghost use Rattle.sch_io.specs.Counters.{Rose, raised};
ghost use Rattle.sch_io.specs.Files.{Replaces, Spoils, written};
ghost use Rattle.sch_io.specs.Stored.{LiesWithin, file_of, files_of};
ghost use Rattle.sch_io.specs.Told.{Tells};

use crate::counter::raise;
use crate::disk::{Disk, DiskRead, Failed};
use sch_word::{Bytes, Mem};
use std::alloc::Global;

// Where a file lies in the text: its name, and its bytes after it.
#[derive(Clone, Copy)]
struct Entry {
    name_at: usize,
    bytes_at: usize,
    end: usize,
}

// The most writes that are taken.
const MAX_WRITES: usize = 4096;

/// A disk that holds its files in memory, and tells them. A read of a name that is not there fails, and
/// so does a write for which there is no room. Some of its calls can be made to fail.
#[derive(Drop)]
pub struct MemDisk {
    text: Vec<u8>,
    entries: Vec<Entry>,
    room: usize,
    slots: usize,
    failing: Vec<u64>,
    calls: u64,
    faults: u64,
    ghost within: { All (LiesWithin text.items) entries.items },
    ghost fits: { vec_len text + room ≤ vec_capacity text },
    ghost has_slots: { vec_len entries + slots ≤ vec_capacity entries },
}

impl MemDisk {
    ghost use Rattle.sch_io.specs.InMemory.{LacksRoomFor, bytes_left, writes_left, calls_had, faults_had, failing_calls, fails_next, held_files};

    /// A disk with these files, of which a later one replaces an earlier one of its name, and with room
    /// for `room` bytes of names and contents in 4,096 writes. What a replaced file held is not given
    /// back. The calls with the numbers `failing` fail; they are counted from 0.
    pub fn new(
        alloc: Global,
        files: &[(Bytes, Bytes)],
        room: u64,
        failing: &[u64],
    ) -> Result<MemDisk, Mem>
        ensures files { IfOk result (λ disk. held_files disk ≡ written empty files.now) }
        ensures room { IfOk result (λ disk. bytes_left disk ≡ room) }
        ensures writes { IfOk result (λ disk. writes_left disk ≡ 4096) }
        ensures failing { IfOk result (λ disk. failing_calls disk ≡ failing.now) }
        ensures counts { IfOk result (λ disk. (calls_had disk ≡ 0) × (faults_had disk ≡ 0)) }
    {
        let room = room as usize;
        let mut text = Vec::new(alloc);
        let mut entries = Vec::new(alloc);
        fill(&mut text, &mut entries, files, room)?;
        Ok(MemDisk {
            text,
            entries,
            room,
            slots: MAX_WRITES,
            failing: Vec::from_slice(alloc, failing)?,
            calls: 0,
            faults: 0,
        })
    }

    // Counts a call, and says whether it fails by its number.
    fn begin(&mut self) -> bool
        ensures fails { result ≡ fails_next self.old }
        ensures same { self.new ≡ record self.old { calls = raised self.old.calls } }
    {
        let fails = self.failing.contains(&self.calls);
        raise(&mut self.calls);
        fails
    }

    fn lacks_room(&self, name: &str, bytes: &[u8]) -> bool
        ensures { IsTrue result ↔ LacksRoomFor self.now (length name.now + length bytes.now) }
    {
        self.room < name.len() || self.room - name.len() < bytes.len() || self.slots == 0
    }

    // A copy of a file's bytes, of which there are at most `limit`.
    fn copied(&self, alloc: Global, name: &str, limit: u64) -> Result<Bytes, DiskRead>
        ensures found { IfOk result (λ bytes. get (held_files self.now) name.now ≡ Some bytes) }
        ensures within { IfOk result (λ bytes. length bytes ≤ limit) }
        ensures too_large { IsErrOf result DiskRead.TooLarge
            → IsSomeAnd (get (held_files self.now) name.now) (λ bytes. limit < length bytes) }
        ensures failed { IsErrOf result DiskRead.Failed ↔ IsNone (get (held_files self.now) name.now) }
    {
        let Some(entry) = find(&self.text, &self.entries, name.as_bytes()) else {
            return Err(DiskRead::Failed);
        };
        let bytes = &self.text[entry.bytes_at..entry.end];
        if bytes.len() as u64 > limit {
            return Err(DiskRead::TooLarge);
        }
        match Bytes::from_slice(alloc, bytes) {
            Ok(bytes) => Ok(bytes),
            Err(Mem) => Err(DiskRead::Memory),
        }
    }

    // Counts a write, and says whether it fails, by its number or for want of room. That is then a fault.
    fn refuses(&mut self, name: &str, bytes: &[u8]) -> bool
        ensures fails { IsTrue result ↔ (IsTrue (fails_next self.old) ⊎ LacksRoomFor self.old (length name.now + length bytes.now)) }
        ensures fault { OnTrue result (self.new ≡ record self.old { calls = raised self.old.calls; faults = raised self.old.faults }) }
        ensures none { OnFalse result (self.new ≡ record self.old { calls = raised self.old.calls }) }
        ensures later { faults_had self.old ≤ faults_had self.new }
    {
        let numbered = self.begin();
        if numbered || self.lacks_room(name, bytes) {
            raise(&mut self.faults);
            return true;
        }
        false
    }

    // Adds a file for which there is room.
    fn store(&mut self, name: &str, bytes: &[u8])
        requires { ¬ LacksRoomFor self.old (length name.now + length bytes.now) }
        ensures files { Replaces name.now bytes.now (held_files self.old) (held_files self.new) }
        ensures bytes { bytes_left self.new + (length name.now + length bytes.now) ≡ bytes_left self.old }
        ensures writes { writes_left self.new + 1 ≡ writes_left self.old }
        ensures same { (calls_had self.new ≡ calls_had self.old) × (faults_had self.new ≡ faults_had self.old)
            × (failing_calls self.new ≡ failing_calls self.old) }
    {
        if append(&mut self.text, &mut self.entries, name.as_bytes(), bytes).is_err() {
            unreachable!();
        }
        self.room -= name.len() + bytes.len();
        self.slots -= 1;
    }
}

impl Disk for MemDisk {
    ghost use Rattle.sch_io.specs.InMemory.{LacksRoomFor, SameRoom, bytes_left, writes_left, calls_had, faults_had, failing_calls, fails_next, held_files, told_files};

    ghost files = { told_files };

    ghost faults = { faults_had };

    ghost calls = { calls_had };

    fn read(&mut self, alloc: Global, name: &str, limit: u64) -> Result<Bytes, DiskRead>
        ensures unchanged { Tells (told_files self.old) (told_files self.new) (λ before after. after ≡ before) }
        ensures found { IfOk result (λ bytes. IfSome (told_files self.new) (λ all. get all name.now ≡ Some bytes)) }
        ensures within { IfOk result (λ bytes. length bytes ≤ limit) }
        ensures too_large { IsErrOf result DiskRead.TooLarge → IfSome (told_files self.new) (λ all. IsSomeAnd (get all name.now) (λ bytes. limit < length bytes)) }
        ensures faults { faults_had self.old ≤ faults_had self.new }
        ensures failed_only_where_faults_rose { IsErrOf result DiskRead.Failed → Rose (faults_had self.old) (faults_had self.new) }
        ensures calls { calls_had self.new ≡ raised (calls_had self.old) }

        // It fails exactly by its number and at a name that is not there.
        ensures failed { IsErrOf result DiskRead.Failed ↔ (IsTrue (fails_next self.old) ⊎ IsNone (get (held_files self.old) name.now)) }

        // A failure is one fault, and no other read is one. A read takes no room, and the same later
        // calls are to fail.
        ensures one_fault { IsErrOf result DiskRead.Failed → faults_had self.new ≡ raised (faults_had self.old) }
        ensures no_fault { ¬ IsErrOf result DiskRead.Failed → faults_had self.new ≡ faults_had self.old }
        ensures room { SameRoom self.old self.new }
        ensures failing { failing_calls self.new ≡ failing_calls self.old }
    {
        if self.begin() {
            raise(&mut self.faults);
            return Err(DiskRead::Failed);
        }
        match self.copied(alloc, name, limit) {
            Err(DiskRead::Failed) => {
                raise(&mut self.faults);
                Err(DiskRead::Failed)
            }
            answer => answer,
        }
    }

    fn write(&mut self, name: &str, bytes: &[u8]) -> Result<(), Failed>
        ensures ok { OnOk result (Tells (told_files self.old) (told_files self.new) (Replaces name.now bytes.now)) }
        ensures err { OnErr result (Tells (told_files self.old) (told_files self.new) (Spoils name.now)) }
        ensures faults { faults_had self.old ≤ faults_had self.new }
        ensures failed_only_where_faults_rose { IsErr result → Rose (faults_had self.old) (faults_had self.new) }
        ensures calls { calls_had self.new ≡ raised (calls_had self.old) }

        // It fails exactly by its number and where there is no room.
        ensures failed { IsErr result ↔ (IsTrue (fails_next self.old) ⊎ LacksRoomFor self.old (length name.now + length bytes.now)) }

        // A failure is one fault, changes no file and takes no room. A success is no fault and takes
        // room. The same later calls are to fail.
        ensures one_fault { OnErr result (faults_had self.new ≡ raised (faults_had self.old)) }
        ensures no_fault { OnOk result (faults_had self.new ≡ faults_had self.old) }
        ensures bytes { OnOk result (bytes_left self.new + (length name.now + length bytes.now) ≡ bytes_left self.old) }
        ensures writes { OnOk result (writes_left self.new + 1 ≡ writes_left self.old) }
        ensures room { OnErr result (SameRoom self.old self.new) }
        ensures kept { OnErr result (held_files self.new ≡ held_files self.old) }
        ensures failing { failing_calls self.new ≡ failing_calls self.old }
    {
        if self.refuses(name, bytes) {
            return Err(Failed);
        }
        self.store(name, bytes);
        Ok(())
    }
}

// Adds these files, and makes room for `room` bytes more in as many writes as are taken.
fn fill(
    text: &mut Vec<u8>,
    entries: &mut Vec<Entry>,
    files: &[(Bytes, Bytes)],
    room: usize,
) -> Result<(), Mem>
    requires { entries.old.items ≡ [] }
    ensures added { OnOk result (map (file_of text.new.items) entries.new.items ≡ files.now) }
    ensures within { OnOk result (All (LiesWithin text.new.items) entries.new.items) }
    ensures room { OnOk result (vec_len text.new + room ≤ vec_capacity text.new) }
    ensures writes { OnOk result (vec_len entries.new + 4096 ≤ vec_capacity entries.new) }
{
    for (name, bytes) in files {
        append(text, entries, name.as_slice(), bytes.as_slice())?;
    }
    text.reserve(room)?;
    entries.reserve(MAX_WRITES)?;
    Ok(())
}

// The last entry of this name.
fn find(text: &[u8], entries: &[Entry], name: &[u8]) -> Option<Entry>
    requires { All (LiesWithin text.now) entries.now }
    ensures within { IfSome result (LiesWithin text.now) }
    ensures content { get (files_of text.now entries.now) name.now ≡ option_map (λ entry. (file_of text.now entry).1) result }
{
    let mut found = None;
    for entry in entries {
        if name == &text[entry.name_at..entry.bytes_at] {
            found = Some(*entry);
        }
    }
    found
}

// Adds a file at the end. It takes no memory where there is room.
fn append(
    text: &mut Vec<u8>,
    entries: &mut Vec<Entry>,
    name: &[u8],
    bytes: &[u8],
) -> Result<(), Mem>
    requires { All (LiesWithin text.old.items) entries.old.items }
    ensures added { OnOk result (map (file_of text.new.items) entries.new.items ≡ map (file_of text.old.items) entries.old.items ++ (name.now, bytes.now) ∷ []) }
    ensures within { All (LiesWithin text.new.items) entries.new.items }
    ensures len { OnOk result ((vec_len text.new ≡ vec_len text.old + (length name.now + length bytes.now)) × (vec_len entries.new ≡ vec_len entries.old + 1)) }
    ensures capacity { (vec_capacity text.old ≤ vec_capacity text.new) × (vec_capacity entries.old ≤ vec_capacity entries.new) }
    ensures succeeds { vec_len text.old + (length name.now + length bytes.now) ≤ vec_capacity text.old → vec_len entries.old < vec_capacity entries.old → IsOk result }
{
    let name_at = text.len();
    text.extend_from_slice(name)?;
    let bytes_at = text.len();
    text.extend_from_slice(bytes)?;
    let end = text.len();
    entries.push(Entry {
        name_at,
        bytes_at,
        end,
    })?;
    Ok(())
}
