//! The program's call over a disk and streams in memory that may fail, and tables of calls.

use sch_cli::schc;
use sch_io::{Disk, MemDisk, MemOutlet};
use sch_word::{Answer, Bytes, Mem};
use std::alloc::Global;
use std::str;
use std::test::Fail;

/// With the least heap and a small depth, so that an image has few zeros to load.
pub(crate) const RUN: &str = "run a --heap 4096 --depth 20";

/// The most bytes of a file that a call writes.
const ROOM: u64 = 100_000;

/// What is outside a call: the file, which is `a` and `p.scm`, the numbers of the disk's calls that fail, what the two streams
/// answer to their first writes, and how many bytes the standard output takes.
#[derive(Clone, Copy)]
pub(crate) struct Outside<'a> {
    pub(crate) file: &'a [u8],
    pub(crate) failing: &'a [u64],
    pub(crate) out: &'a [Answer],
    pub(crate) err: &'a [Answer],
    pub(crate) room: usize,
}

impl<'a> Outside<'a> {
    /// Where nothing fails.
    pub(crate) fn of(file: &'a [u8]) -> Outside<'a> {
        Outside {
            file,
            failing: &[],
            out: &[],
            err: &[],
            room: 50_000,
        }
    }
}

/// What a call answered, what the streams took, and the disk behind it.
#[derive(Drop)]
pub(crate) struct Outcome {
    pub(crate) status: u8,
    out: MemOutlet,
    err: MemOutlet,
    disk: MemDisk,
}

impl Outcome {
    pub(crate) fn printed(&self) -> &[u8] {
        self.out.taken()
    }

    pub(crate) fn said(&self) -> &[u8] {
        self.err.taken()
    }

    /// What a file then holds, if it is there.
    pub(crate) fn file(&mut self, alloc: Global, name: &str) -> Option<Bytes> {
        self.disk.read(alloc, name, ROOM).ok()
    }
}

// The words of a line, which are parted by spaces. An empty line has none.
fn words_of(alloc: Global, line: &str) -> Result<Vec<String>, Mem> {
    let mut words = Vec::new(alloc);
    if !line.is_empty() {
        for word in line.split(' ') {
            words.push(String::from_str(alloc, word)?)?;
        }
    }
    Ok(words)
}

// A file of a name, as a disk is given it.
fn named(alloc: Global, name: &[u8], file: &[u8]) -> Result<(Bytes, Bytes), Mem> {
    let name = Bytes::from_slice(alloc, name)?;
    let file = Bytes::from_slice(alloc, file)?;
    Ok((name, file))
}

fn disk_of(alloc: Global, outside: Outside) -> Result<MemDisk, Mem> {
    let short = named(alloc, b"a", outside.file)?;
    let long = named(alloc, b"p.scm", outside.file)?;
    MemDisk::new(alloc, &[short, long], ROOM, outside.failing)
}

// Where nothing is called yet.
fn begun(alloc: Global, outside: Outside) -> Result<Outcome, Mem> {
    let disk = disk_of(alloc, outside)?;
    let out = MemOutlet::new(alloc, outside.out, outside.room)?;
    let err = MemOutlet::new(alloc, outside.err, 1000)?;
    Ok(Outcome {
        status: 0,
        out,
        err,
        disk,
    })
}

// Calls the program with these words.
fn perform(alloc: Global, words: &[String], outcome: &mut Outcome) -> u8 {
    schc(
        alloc,
        words,
        &mut outcome.disk,
        &mut outcome.out,
        &mut outcome.err,
    )
}

/// Calls the program with the words of a line.
pub(crate) fn call(alloc: Global, line: &str, outside: Outside) -> Result<Outcome, Mem> {
    let words = words_of(alloc, line)?;
    let mut outcome = begun(alloc, outside)?;
    outcome.status = perform(alloc, words.as_slice(), &mut outcome);
    Ok(outcome)
}

/// Calls the program where nothing fails.
pub(crate) fn call_well(alloc: Global, line: &str, file: &[u8]) -> Result<Outcome, Mem> {
    call(alloc, line, Outside::of(file))
}

/// The file `p` that a call writes, where nothing fails.
pub(crate) fn written(alloc: Global, line: &str, file: &[u8]) -> Result<Bytes, Fail> {
    let mut outcome = call_well(alloc, line, file)?;
    Ok(outcome.file(alloc, "p").ok_or("no file")?)
}

/// What is wanted of a call: its status, what the standard output took, and what is said.
pub(crate) type Wanted<'a> = (u8, &'a [u8], &'a [u8]);

/// Whether a call ended so.
pub(crate) fn ended(outcome: &Outcome, wanted: Wanted) -> bool {
    let (status, printed, said) = wanted;
    outcome.status == status && outcome.printed() == printed && outcome.said() == said
}

// The failure of a call by its line and its file.
fn differs(line: &str, file: &[u8]) -> Fail {
    match str::from_utf8(file) {
        Ok(text) => Fail::new(format_args!("another end or output: {line}: {text}")),
        Err(_) => Fail::new(format_args!("another end or output: {line}")),
    }
}

/// Calls the program: what is wanted comes of it.
pub(crate) fn check(
    alloc: Global,
    line: &str,
    outside: Outside,
    wanted: Wanted,
) -> Result<(), Fail> {
    let outcome = call(alloc, line, outside)?;
    if ended(&outcome, wanted) {
        return Ok(());
    }
    Err(differs(line, outside.file))
}

/// Calls the program where nothing fails: an executable is written exactly where one is compiled.
pub(crate) fn check_well(
    alloc: Global,
    line: &str,
    file: &[u8],
    wanted: Wanted,
) -> Result<(), Fail> {
    let mut outcome = call_well(alloc, line, file)?;
    let compiles = wanted.0 == 0 && line.starts_with("compile");
    if ended(&outcome, wanted) && outcome.file(alloc, "p").is_some() == compiles {
        return Ok(());
    }
    Err(differs(line, file))
}

/// Calls the program with one line and each of these files, which ends with 0: what is printed.
pub(crate) fn check_printed(
    alloc: Global,
    line: &str,
    rows: &[(&[u8], &[u8])],
) -> Result<(), Fail> {
    for (file, printed) in rows {
        check_well(alloc, line, file, (0, printed, b""))?;
    }
    Ok(())
}

/// A file, and what is wanted of a call with it.
pub(crate) type Ended<'a> = (&'a [u8], Wanted<'a>);

/// Calls the program with one line and each of these files.
pub(crate) fn check_files(alloc: Global, line: &str, rows: &[Ended]) -> Result<(), Fail> {
    for (file, wanted) in rows {
        check_well(alloc, line, file, *wanted)?;
    }
    Ok(())
}

/// A line, a file, and what is wanted of their call.
pub(crate) type Called<'a> = (&'a str, &'a [u8], Wanted<'a>);

/// Calls the program with each of these lines and its file.
pub(crate) fn check_lines(alloc: Global, rows: &[Called]) -> Result<(), Fail> {
    for (line, file, wanted) in rows {
        check_well(alloc, line, file, *wanted)?;
    }
    Ok(())
}

/// A text, one that stands behind it so many times, and one at the end.
pub(crate) type Repeated<'a> = (&'a [u8], &'a [u8], usize, &'a [u8]);

/// Pushes these bytes so many times.
pub(crate) fn repeat(source: &mut Bytes, part: &[u8], count: usize) -> Result<(), Mem> {
    for _ in 0..count {
        source.extend_from_slice(part)?;
    }
    Ok(())
}

fn push_repeated(source: &mut Bytes, repeated: Repeated) -> Result<(), Mem> {
    let (first, part, count, last) = repeated;
    source.extend_from_slice(first)?;
    repeat(source, part, count)?;
    source.extend_from_slice(last)
}

fn check_one(alloc: Global, line: &str, repeated: Repeated, wanted: Wanted) -> Result<(), Fail> {
    let mut source = Bytes::new(alloc);
    push_repeated(&mut source, repeated)?;
    check_well(alloc, line, source.as_slice(), wanted)
}

/// Calls the program with one line and the file of each of these texts.
pub(crate) fn check_repeated(
    alloc: Global,
    line: &str,
    rows: &[(Repeated, Wanted)],
) -> Result<(), Fail> {
    for (repeated, wanted) in rows {
        check_one(alloc, line, *repeated, *wanted)?;
    }
    Ok(())
}
