//! Disks and streams that fail or take less than they are given, at each of their calls in turn.

use crate::outside::{Outcome, Outside, Wanted, call, call_well, check, ended, written};
use sch_word::{Answer, Bytes, Mem};
use std::alloc::Global;
use std::test::Fail;

const LISTED: &str = "compile p.scm p --listing f";

const TEXT: &[u8] = b"(define (f x) x)(display (f 1))";

// Whether a file is then there and holds these bytes.
fn holds(alloc: Global, outcome: &mut Outcome, name: &str, bytes: &[u8]) -> bool {
    match outcome.file(alloc, name) {
        Some(file) => file.as_slice() == bytes,
        None => false,
    }
}

// Calls the program where the disk's call of this number fails.
fn call_failing(alloc: Global, line: &str, number: u64) -> Result<Outcome, Mem> {
    let failing = [number];
    let outside = Outside {
        failing: &failing,
        ..Outside::of(TEXT)
    };
    call(alloc, line, outside)
}

/// A line, the disk's call that fails, the status, what is said, and whether the executable is then on the disk.
const DISKS: &[(&str, u64, u8, &[u8], bool)] = &[
    ("compile p.scm p", 0, 2, b"p.scm: read failed\n", false),
    ("compile p.scm p", 1, 3, b"p: write failed\n", false),
    (LISTED, 0, 2, b"p.scm: read failed\n", false),
    (LISTED, 1, 3, b"p: write failed\n", false),
    (LISTED, 2, 3, b"f: write failed\n", true),
    ("run p.scm", 0, 2, b"p.scm: read failed\n", false),
    ("step p.scm", 0, 2, b"p.scm: read failed\n", false),
    ("list p.scm", 0, 2, b"p.scm: read failed\n", false),
    ("count p.scm", 0, 2, b"p.scm: read failed\n", false),
];

// Whether the source and the other file are as they were, the executable is there or not, and no listing is.
fn is_left(alloc: Global, outcome: &mut Outcome, written: bool) -> bool {
    holds(alloc, outcome, "p.scm", TEXT)
        && holds(alloc, outcome, "a", TEXT)
        && outcome.file(alloc, "p").is_some() == written
        && outcome.file(alloc, "f").is_none()
}

// A read that fails leaves all files as they were, and a write that fails those that are not written yet.
#[test]
fn each_call_of_the_disk_fails(rt: HostRuntime) -> Result<(), Fail> {
    for (line, number, status, said, written) in DISKS {
        let mut outcome = call_failing(rt.alloc(), line, *number)?;
        assert!(rt; is_left(rt.alloc(), &mut outcome, *written), "at {line}");
        assert!(rt; ended(&outcome, (*status, b"", said)), "at {line}");
    }
    Ok(())
}

// The executable that is written with a listing.
fn listed_image(alloc: Global) -> Result<Bytes, Fail> {
    let mut whole = call_well(alloc, LISTED, TEXT)?;
    if whole.status != 0 || whole.file(alloc, "f").is_none() {
        return Err(Fail::from("no listing"));
    }
    Ok(whole.file(alloc, "p").ok_or("no file")?)
}

// Whether the executable is this one where the listing is not written.
fn leaves(alloc: Global, image: &[u8]) -> Result<bool, Mem> {
    let mut failed = call_failing(alloc, LISTED, 2)?;
    Ok(holds(alloc, &mut failed, "p", image))
}

// Where the listing is not written, the executable is the one that is written with it.
#[test]
fn the_executable_is_written_first(rt: HostRuntime) -> Result<(), Fail> {
    let image = listed_image(rt.alloc())?;
    assert!(rt; leaves(rt.alloc(), image.as_slice())?);
    Ok(())
}

const FURTHER: &[(&str, u64)] = &[
    ("compile p.scm p", 2),
    (LISTED, 3),
    ("run p.scm --heap 4096", 1),
    ("list p.scm", 1),
    ("count p.scm --heap 4096", 1),
];

// A failure that is planned for a call behind the last one is never seen.
#[test]
fn a_failure_of_a_further_call_is_not_seen(rt: HostRuntime) -> Result<(), Fail> {
    for (line, number) in FURTHER {
        let outcome = call_failing(rt.alloc(), line, *number)?;
        assert!(rt;
            outcome.status == 0 && outcome.said().is_empty(),
            "at {line}"
        );
    }
    Ok(())
}

const SHORT: Answer = Answer::Took(1);

const NONE: Answer = Answer::Took(0);

const TWO: Answer = Answer::Took(2);

const ALL: Answer = Answer::Took(9);

const FAILED: Answer = Answer::Failed;

/// Programs, what the stream answers to their pieces, the status, and what the stream takes.
const PIECES: &[(&[u8], &[Answer], u8, &[u8])] = &[
    (b"(display 12)", &[SHORT, SHORT], 0, b"12"),
    (b"(display 12)", &[NONE], 74, b""),
    (b"(display 12)", &[FAILED], 74, b""),
    (b"(display 12)", &[SHORT, NONE], 74, b"1"),
    (b"(display \"abc\")", &[SHORT, SHORT, FAILED], 74, b"ab"),
    (b"", &[FAILED], 0, b""),
    (b"(display \"\")", &[FAILED], 0, b""),
    (b"(display 12)(newline)(display 3)", &[SHORT], 0, b"12\n3"),
    (
        b"(display 12)(newline)(display 3)",
        &[ALL, SHORT, SHORT],
        0,
        b"12\n3",
    ),
    (
        b"(display 12)(newline)(display 3)",
        &[ALL, FAILED],
        74,
        b"12",
    ),
    (b"(display 12)(newline)(display 3)", &[ALL, NONE], 74, b"12"),
    (
        b"(display 12)(newline)(display 3)",
        &[ALL, ALL, FAILED],
        74,
        b"12\n",
    ),
    (
        b"(display 12)(newline)(display 3)",
        &[ALL, ALL, NONE],
        74,
        b"12\n",
    ),
];

// What is said where the standard output did not take a program's piece.
fn said_of(status: u8) -> &'static [u8] {
    if status == 0 {
        b""
    } else {
        b"stop 74: output failed\n"
    }
}

// Runs a program over a stream that answers so, and then steps its image.
fn check_pieces(alloc: Global, file: &[u8], out: &[Answer], wanted: Wanted) -> Result<(), Fail> {
    let source = Outside {
        out,
        ..Outside::of(file)
    };
    check(alloc, "run p.scm", source, wanted)?;
    let image = written(alloc, "compile p.scm p --heap 4096 --depth 20", file)?;
    let image = Outside {
        out,
        ..Outside::of(image.as_slice())
    };
    check(alloc, "step p.scm", image, wanted)
}

// What a program and its image print where the stream takes less than it is given, or fails, at each piece in turn.
#[test]
fn each_answer_to_a_program_is_short_or_fails(rt: HostRuntime) -> Result<(), Fail> {
    for (file, out, status, printed) in PIECES {
        check_pieces(rt.alloc(), file, out, (*status, printed, said_of(*status)))?;
    }
    Ok(())
}

const ROOMS: &[(usize, u8, &[u8])] = &[(1, 74, b""), (2, 0, b"12")];

// A stream without room for a piece fails.
#[test]
fn a_stream_without_room_fails(rt: HostRuntime) -> Result<(), Fail> {
    for (room, status, taken) in ROOMS {
        let outside = Outside {
            room: *room,
            ..Outside::of(b"(display 12)")
        };
        let wanted = (*status, *taken, said_of(*status));
        check(rt.alloc(), "run p.scm", outside, wanted)?;
    }
    Ok(())
}

// As many answers that take one byte, and then another one.
fn plan_of(alloc: Global, plan: (usize, Answer)) -> Result<Vec<Answer>, Mem> {
    let (count, last) = plan;
    let mut answers = Vec::new(alloc);
    for _ in 0..count {
        answers.push(Answer::Took(1))?;
    }
    answers.push(last)?;
    Ok(answers)
}

// Prints a text over a stream that takes single bytes and then answers otherwise: what the call answers, and what was taken.
fn check_text(
    alloc: Global,
    line: &str,
    plan: (usize, Answer),
    wanted: (u8, &[u8]),
) -> Result<(), Fail> {
    let plan = plan_of(alloc, plan)?;
    let outside = Outside {
        out: plan.as_slice(),
        ..Outside::of(TEXT)
    };
    let (status, printed) = wanted;
    let said: &[u8] = if status == 0 { b"" } else { b"output failed\n" };
    check(alloc, line, outside, (status, printed, said))
}

// A text that is printed goes on after a write that took one byte, and ends at one that failed or took nothing.
fn check_whole(alloc: Global, line: &str, whole: &[u8]) -> Result<(), Fail> {
    check_text(alloc, line, (0, SHORT), (0, whole))?;
    for count in [0, 1, 2, 9] {
        let begun = whole.get(..count).ok_or("too short")?;
        for (last, wanted) in [(FAILED, (3, begun)), (NONE, (3, begun)), (TWO, (0, whole))] {
            check_text(alloc, line, (count, last), wanted)?;
        }
    }
    Ok(())
}

fn check_texts(alloc: Global, line: &str) -> Result<(), Fail> {
    let well = call_well(alloc, line, TEXT)?;
    if well.status != 0 {
        return Err(Fail::from("another end"));
    }
    check_whole(alloc, line, well.printed())
}

#[test]
fn each_answer_to_a_text_is_short_or_fails(rt: HostRuntime) -> Result<(), Fail> {
    for line in ["list p.scm", "count p.scm --heap 4096"] {
        check_texts(rt.alloc(), line)?;
    }
    Ok(())
}

// Makes a call over a standard error that takes as many single bytes and then answers otherwise.
fn check_count(
    alloc: Global,
    line: &str,
    outside: Outside,
    plan: (usize, Answer),
    wanted: Wanted,
) -> Result<(), Fail> {
    let plan = plan_of(alloc, plan)?;
    let other = Outside {
        err: plan.as_slice(),
        ..outside
    };
    check(alloc, line, other, wanted)
}

// Makes a call again over a standard error that takes single bytes and then answers otherwise, behind each count of them: the
// status is the same, and the part of the line before that was taken.
fn check_line(
    alloc: Global,
    line: &str,
    outside: Outside,
    well: &Outcome,
    last: Answer,
) -> Result<(), Fail> {
    let said = well.said();
    for count in 0..said.len().saturating_add(1) {
        let begun = said.get(..count).ok_or("too short")?;
        check_count(
            alloc,
            line,
            outside,
            (count, last),
            (well.status, well.printed(), begun),
        )?;
    }
    Ok(())
}

// The same of one call.
fn check_both(alloc: Global, line: &str, outside: Outside, well: &Outcome) -> Result<(), Fail> {
    for last in [FAILED, NONE] {
        check_line(alloc, line, outside, well, last)?;
    }
    Ok(())
}

/// A line, the file, the disk's calls that fail, what the standard output answers, and the status.
const LINES: &[(&str, &[u8], &[u64], &[Answer], u8)] = &[
    ("run", b"", &[], &[], 1),
    ("run none.scm", b"", &[], &[], 2),
    ("compile p.scm p", b"", &[1], &[], 3),
    (LISTED, b"", &[2], &[], 3),
    ("list p.scm", b"", &[], &[FAILED], 3),
    ("count p.scm --heap 4096", b"", &[], &[FAILED], 3),
    ("run p.scm", b"(display", &[], &[], 4),
    ("list p.scm", b"(if)", &[], &[], 5),
    ("count p.scm", b"(foo)", &[], &[], 6),
    ("compile p.scm p", b"1152921504606846976", &[], &[], 7),
    ("step p.scm", b"0123456789", &[], &[], 8),
    ("run p.scm --heap 4096 --steps 0", b"", &[], &[], 9),
    ("run p.scm --heap 4096", b"(car 1)", &[], &[], 65),
    ("run p.scm --heap 4096", b"(display 1)", &[], &[FAILED], 74),
];

// No failure of the standard error changes a status, wherever in the line it is.
#[test]
fn each_answer_to_a_line_is_short_or_fails(rt: HostRuntime) -> Result<(), Fail> {
    let alloc = rt.alloc();
    for (line, file, failing, out, status) in LINES {
        let outside = Outside {
            failing,
            out,
            ..Outside::of(file)
        };
        let well = call(alloc, line, outside)?;
        assert!(rt; well.status == *status, "at {line}");
        check_both(alloc, line, outside, &well)?;
    }
    Ok(())
}
