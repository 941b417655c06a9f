//! The words of a command line.

use sch_words::read_words;
use std::alloc::Global;
use std::test::Fail;

// The words of a line, which are parted by spaces.
fn words_of(alloc: Global, line: &str) -> Result<Vec<String>, Fail> {
    let mut words = Vec::new(alloc);
    for word in line.split(' ') {
        words.push(String::from_str(alloc, word)?)?;
    }
    Ok(words)
}

#[test]
fn words_that_are_read(rt: HostRuntime) -> Result<(), Fail> {
    let words = words_of(rt.alloc(), "--heap=64 run --steps 7 -- -p")?;
    let read = read_words(rt.alloc(), words.as_slice())?;
    let texts = read.ok_or("no words")?;
    assert!(rt; texts.verb == Some("run") && texts.name == Some("-p"));
    assert!(rt; texts.second.is_none() && texts.listing.is_none() && texts.depth.is_none());
    assert!(rt; texts.heap == Some("64") && texts.steps == Some("7"));
    Ok(())
}

#[test]
fn words_that_are_refused(rt: HostRuntime) -> Result<(), Fail> {
    for line in [
        "--help",
        "a b c d",
        "--heap 1 --heap=2",
        "--heap -- 5",
        "-x",
    ] {
        let words = words_of(rt.alloc(), line)?;
        let read = read_words(rt.alloc(), words.as_slice())?;
        assert!(rt; read.is_none(), "at {line}");
    }
    Ok(())
}
