//! The program's call over a disk and outlets in memory.

use sch_cli::schc;
use sch_io::{MemDisk, MemOutlet};
use sch_word::{Bytes, Mem};
use std::alloc::Global;
use std::str;
use std::test::Fail;

/// The lines of the stops.
pub(crate) const WRONG_TYPE: &[u8] = b"stop 65: wrong type\n";

pub(crate) const OUT_OF_RANGE: &[u8] = b"stop 66: out of range\n";

pub(crate) const NOT_PROCEDURE: &[u8] = b"stop 67: not a procedure\n";

pub(crate) const WRONG_COUNT: &[u8] = b"stop 68: wrong argument count\n";

pub(crate) const DIVIDE_BY_ZERO: &[u8] = b"stop 69: division by zero\n";

pub(crate) const HEAP_LIMIT: &[u8] = b"stop 71: heap limit\n";

pub(crate) const DEPTH_LIMIT: &[u8] = b"stop 72: depth limit\n";

/// With a small heap and a small depth, so that an image has few zeros to load.
pub(crate) const RUN: [&str; 6] = ["run", "a", "--heap", "65536", "--depth", "1000"];

/// What a call answered, and what the streams took.
#[derive(Drop)]
pub(crate) struct Ending {
    pub(crate) status: u8,
    out: MemOutlet,
    err: MemOutlet,
}

impl Ending {
    pub(crate) fn printed(&self) -> &[u8] {
        self.out.taken()
    }

    pub(crate) fn said(&self) -> &[u8] {
        self.err.taken()
    }
}

// Where nothing is called yet.
fn begun(alloc: Global) -> Result<Ending, Mem> {
    let out = MemOutlet::new(alloc, &[], 10_000)?;
    let err = MemOutlet::new(alloc, &[], 1000)?;
    Ok(Ending {
        status: 0,
        out,
        err,
    })
}

// A disk whose only file is `a`.
fn disk_of(alloc: Global, file: &[u8]) -> Result<MemDisk, Mem> {
    let name = Bytes::from_slice(alloc, b"a")?;
    let file = Bytes::from_slice(alloc, file)?;
    MemDisk::new(alloc, &[(name, file)], 0, &[])
}

fn words_of(alloc: Global, words: &[&str]) -> Result<Vec<String>, Mem> {
    let mut all = Vec::new(alloc);
    for word in words {
        all.push(String::from_str(alloc, word)?)?;
    }
    Ok(all)
}

// Calls the program with these words.
fn call(alloc: Global, words: &[String], disk: &mut MemDisk, ending: &mut Ending) -> u8 {
    schc(alloc, words, disk, &mut ending.out, &mut ending.err)
}

/// Calls the program on a disk whose only file is `a`.
pub(crate) fn perform(alloc: Global, words: &[&str], file: &[u8]) -> Result<Ending, Mem> {
    let words = words_of(alloc, words)?;
    let mut disk = disk_of(alloc, file)?;
    let mut ending = begun(alloc)?;
    ending.status = call(alloc, words.as_slice(), &mut disk, &mut ending);
    Ok(ending)
}

// The failure of a call with this file.
fn differs(file: &[u8]) -> Fail {
    match str::from_utf8(file) {
        Ok(text) => Fail::new(format_args!("another end or output: {text}")),
        Err(_) => Fail::from("another end or output"),
    }
}

/// Calls the program: its status, what is printed, and what is said.
pub(crate) fn check(
    alloc: Global,
    words: &[&str],
    file: &[u8],
    wanted: (u8, &[u8], &[u8]),
) -> Result<(), Fail> {
    let (status, printed, said) = wanted;
    let ending = perform(alloc, words, file)?;
    if ending.status == status && ending.printed() == printed && ending.said() == said {
        return Ok(());
    }
    Err(differs(file))
}

/// Runs a source that ends with 0.
pub(crate) fn check_printed(alloc: Global, source: &[u8], printed: &[u8]) -> Result<(), Fail> {
    check(alloc, &RUN, source, (0, printed, b""))
}

/// Runs sources that end with 0: each with what it prints.
pub(crate) fn check_rows(alloc: Global, rows: &[(&[u8], &[u8])]) -> Result<(), Fail> {
    for (source, printed) in rows {
        check_printed(alloc, source, printed)?;
    }
    Ok(())
}

/// Runs sources that print nothing and stop: each with its status and what is said.
pub(crate) fn check_stops(alloc: Global, rows: &[(&[u8], u8, &[u8])]) -> Result<(), Fail> {
    for (source, status, said) in rows {
        check(alloc, &RUN, source, (*status, b"", said))?;
    }
    Ok(())
}

/// A text, and a form that stands behind it so many times.
pub(crate) fn repeated(
    alloc: Global,
    first: &[u8],
    form: &[u8],
    count: u64,
) -> Result<Vec<u8>, Mem> {
    let mut source = Vec::from_slice(alloc, first)?;
    for _ in 0..count {
        source.extend_from_slice(form)?;
    }
    Ok(source)
}
