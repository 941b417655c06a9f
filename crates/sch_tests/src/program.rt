//! The program's call over a disk and streams in memory: what is compiled and refused, words and options, and images.
ghost use Rattle.std.specs.Prelude.{◌≤◌, length};

use crate::outside::{
    Called, Ended, Repeated, Wanted, check_files, check_lines, check_printed, check_repeated,
    check_well, written,
};
use sch_cli::report_words;
use sch_elf::{program_image, write_image};
use sch_io::MemOutlet;
use sch_word::Bytes;
use std::alloc::Global;
use std::io::{Error, ErrorKind};
use std::test::Fail;

const COMPILE: &str = "compile a p";

const COMPILED: &[(&[u8], &[u8])] = &[
    (b"", b""),
    (b" \t\n\r\x0c", b""),
    (b"; a comment", b""),
    (b"(display -42)\n(newline)", b""),
    (b"(DISPLAY 007)(display +1)(display -0)", b""),
    (b"( display\t\n 1152921504606846975 ) (\nNewline )", b""),
    (b"(display -1152921504606846976)(display #\\space)", b""),
    (b"(display #t)(display #f)", b""),
    (b"(begin (newline))", b""),
    (b"(begin)", b""),
    (b"(lambda (if) if)", b""),
    (b"(define x 1)", b""),
    (b"(display 1)(display (+))1", b""),
    (b"(display '1)2 3", b""),
    (b"(display \"a\")", b""),
    (b"(newline)(display (car 1))", b""),
    (b"(car)", b""),
];

#[test]
fn texts_that_compile(rt: HostRuntime) -> Result<(), Fail> {
    check_printed(rt.alloc(), COMPILE, COMPILED)
}

const REFUSED: &[Ended] = &[
    (b"(display (list 1 2", (4, b"", b"a: byte 9: unclosed\n")),
    (b"(display 1", (4, b"", b"a: byte 0: unclosed\n")),
    (b")", (4, b"", b"a: byte 0: stray close\n")),
    (b"(a . b c)", (4, b"", b"a: byte 7: bad token\n")),
    (b"1.5", (4, b"", b"a: byte 0: bad number\n")),
    (b"\"a\\q\"", (4, b"", b"a: byte 2: bad string\n")),
    (b"(define if 1)", (5, b"", b"a: byte 0: keyword defined\n")),
    (b"(if)", (5, b"", b"a: byte 0: bad form\n")),
    (b"()", (5, b"", b"a: byte 0: bad form\n")),
    (b"#(1)", (5, b"", b"a: byte 0: bad form\n")),
    (b"(quasiquote x)", (5, b"", b"a: byte 0: bad form\n")),
    (b"(+ 1 (begin))", (5, b"", b"a: byte 5: bad form\n")),
    (b"(lambda (x x) x)", (5, b"", b"a: byte 0: bad form\n")),
    (b"(let ((x 1) (x 2)) x)", (5, b"", b"a: byte 0: bad form\n")),
    (b"(display 1) x", (6, b"", b"a: byte 12: unbound x\n")),
    (
        b"(display 1152921504606846976)",
        (7, b"", b"a: byte 9: limit literal\n"),
    ),
    (b"(newlin)", (6, b"", b"a: byte 1: unbound newlin\n")),
    (b"(foo)", (6, b"", b"a: byte 1: unbound foo\n")),
    (b"(set! y 1)", (6, b"", b"a: byte 6: unbound y\n")),
];

#[test]
fn texts_that_are_refused(rt: HostRuntime) -> Result<(), Fail> {
    check_files(rt.alloc(), COMPILE, REFUSED)
}

const OPERANDS: &[u8] = b"a: byte 0: limit operands\n";

const LIMITS: &[(Repeated, Wanted)] = &[
    // A thousand levels of parentheses are the most.
    (
        (b"", b"(", 1001, b""),
        (7, b"", b"a: byte 1000: limit nesting\n"),
    ),
    // 200 operands are the most, of operations and of calls.
    ((b"(+", b" 1", 200, b")"), (0, b"", b"")),
    ((b"(+", b" 1", 201, b")"), (7, b"", OPERANDS)),
    ((b"(list", b" 1", 200, b")"), (0, b"", b"")),
    ((b"(list", b" 1", 201, b")"), (7, b"", OPERANDS)),
    // 2,000 levels are the most: each element of an `or` but the last is two.
    ((b"(or", b" 1", 1000, b")"), (0, b"", b"")),
    (
        (b"(or", b" 1", 1001, b")"),
        (7, b"", b"a: byte 2002: limit core\n"),
    ),
    // 1,000 variables of a body are the most: each value that is dropped is one.
    ((b"(let ()", b" (car 1)", 1001, b")"), (0, b"", b"")),
    (
        (b"(let ()", b" (car 1)", 1002, b")"),
        (7, b"", b"a: byte 0: limit variables\n"),
    ),
    // A source of the greatest length.
    ((b"", b" ", 1_048_576, b""), (0, b"", b"")),
    ((b"", b" ", 1_048_577, b""), (7, b"", b"a: limit file\n")),
];

#[test]
fn texts_at_their_limits(rt: HostRuntime) -> Result<(), Fail> {
    check_repeated(rt.alloc(), COMPILE, LIMITS)
}

// Constants and variables whose values are dropped: a body has as many as its text has room for, of 1 MiB here.
const PARTS: &[(Repeated, Wanted)] = &[(
    (b"(define (f x)", b" 1 x", 262_130, b" 7)(display (f 0))"),
    (0, b"7", b""),
)];

#[test]
fn a_body_of_many_parts(rt: HostRuntime) -> Result<(), Fail> {
    check_repeated(rt.alloc(), "run a", PARTS)
}

// The places of the numbers are those of the ELF-64 header and program headers.
const PLACES: &[(usize, &[u8])] = &[
    (0, &[0x7f, b'E', b'L', b'F', 2, 1, 1, 0]),
    (24, &[0, 0, 0x40, 0, 0, 0, 0, 0]),
    (80, &[0, 0, 0x40, 0, 0, 0, 0, 0]),
    (136, &[0, 0, 0, 0x10, 0, 0, 0, 0]),
];

#[test]
fn program_has_its_header(rt: HostRuntime) -> Result<(), Fail> {
    let file = written(rt.alloc(), COMPILE, b"(display -42)\n(newline)\n")?;
    for (place, bytes) in PLACES {
        let rest = file.as_slice().get(*place..).ok_or("too short")?;
        assert!(rt; rest.starts_with(bytes), "at {place}");
    }
    Ok(())
}

const USAGE: &[u8] =
    b"usage: schc VERB NAME [NAME2] [--listing F] [--heap N] [--depth N] [--steps N]\n";

// Lines of words, which are parted by single spaces: some words are empty.
const NO_COMMANDS: &[&str] = &[
    "",
    "--help",
    "compile",
    "compile a",
    "compile a a",
    "compile  p",
    "compile a ",
    "compile a p c",
    "compile a --listing",
    "compile a p --listing p",
    "run a --listing=c",
    "step --listing c a",
    "run --steps",
    "step -a",
    "run",
    "run a p",
    "run a --heap",
    "run a --heap ",
    "run a --heap 4080",
    "run a --heap 4097",
    "compile a p --heap 1073741840",
    "compile a p --steps 1",
    "run a --heap 4096 --heap 4096",
    "run a --heap 4096 --heap=4096",
    "run --heap a",
    "run a -- --heap=4096",
    "step a --heap 4096",
    "run a --steps 1000000000000000001",
    "run a --steps 1x",
    "run a --depth 0",
    "run a --depth 10000001",
    "compile a p --depth",
    "run a --depth 1 --steps 1 --depth 1",
    "step a --depth 1",
    "step ",
];

#[test]
fn words_that_are_no_command(rt: HostRuntime) -> Result<(), Fail> {
    for line in NO_COMMANDS {
        check_well(rt.alloc(), line, b"", (1, b"", USAGE))?;
    }
    Ok(())
}

const SPENT: Wanted = (9, b"", b"steps spent\n");

const DONE: Wanted = (0, b"", b"");

const OPTIONS: &[Called] = &[
    ("run --heap=4096 a", b"", DONE),
    ("run a --heap 0000000000000004096", b"", DONE),
    ("--steps 0 run a --heap 8192", b"", SPENT),
    ("run --heap=8192 --steps=0 -- a", b"", SPENT),
    ("compile a p --heap 1073741824", b"", DONE),
    ("compile a --depth 10000000 p", b"", DONE),
    ("run a --steps 0 --depth 1 --heap 8192", b"", SPENT),
    ("run a", TWO_LINES, (0, b"-42\n", b"")),
    ("run a --heap 4096", b"", DONE),
    ("run a --steps 0", TWO_LINES, SPENT),
    ("run c", TWO_LINES, (2, b"", b"c: read failed\n")),
    ("run a", b"(newline)(define (g . l) 1)", (0, b"\n", b"")),
    (
        "run a",
        b"(newline) x",
        (6, b"", b"a: byte 10: unbound x\n"),
    ),
];

#[test]
fn words_and_sources_run(rt: HostRuntime) -> Result<(), Fail> {
    check_lines(rt.alloc(), OPTIONS)
}

const CAUSES: [(ErrorKind, u8, &[u8]); 2] = [
    (ErrorKind::OutOfMemory, 10, b"out of memory\n"),
    (ErrorKind::InvalidData, 1, USAGE),
];

#[test]
fn words_that_the_host_does_not_give(rt: HostRuntime) -> Result<(), Fail> {
    for (kind, status, said) in CAUSES {
        let mut err = MemOutlet::new(rt.alloc(), &[], 1000)?;
        assert!(rt; report_words(&Error::from(kind), &mut err) == status);
        assert!(rt; err.taken() == said);
    }
    Ok(())
}

const TWO_LINES: &[u8] = b"(display -42)(newline)";

const STEPPED: &[(&[u8], &[u8])] = &[
    (b"", b""),
    (b"(display 7)(newline)", b"7\n"),
    (b"(display 007)(display -0)", b"70"),
    (b"(display #t)(display #\\a)(newline)", b"#ta\n"),
    (b"(display -1152921504606846976)", b"-1152921504606846976"),
    (b"(display 1152921504606846975)", b"1152921504606846975"),
];

#[test]
fn compiled_images_step(rt: HostRuntime) -> Result<(), Fail> {
    for (source, printed) in STEPPED {
        let image = written(rt.alloc(), "compile a p --heap 4096", source)?;
        check_well(rt.alloc(), "step a", image.as_slice(), (0, printed, b""))?;
    }
    Ok(())
}

// Steps the image with this text.
fn check_image(alloc: Global, line: &str, text: &[u8], wanted: Wanted) -> Result<(), Fail>
    requires { length text.now ≤ 1000 }
{
    let text = Bytes::from_slice(alloc, text)?;
    let image = program_image(alloc, text, Bytes::new(alloc), 0)?;
    let file = write_image(alloc, &image)?;
    check_well(alloc, line, file.as_slice(), wanted)
}

/// mov rax, 60; mov rdi, STATUS; syscall.
pub(crate) fn exit_with(status: u8) -> [u8; 16] {
    [
        0x48, 0xC7, 0xC0, 60, 0, 0, 0, 0x48, 0xC7, 0xC7, status, 0, 0, 0, 0x0F, 0x05,
    ]
}

/// A line, the status with which an image exits, and what is wanted.
const ENDINGS: &[(&str, u8, Wanted)] = &[
    ("step a", 0, (0, b"", b"")),
    ("step a", 65, (65, b"", b"stop 65: wrong type\n")),
    ("step a", 66, (66, b"", b"stop 66: out of range\n")),
    ("step a", 67, (67, b"", b"stop 67: not a procedure\n")),
    ("step a", 68, (68, b"", b"stop 68: wrong argument count\n")),
    ("step a", 69, (69, b"", b"stop 69: division by zero\n")),
    ("step a", 70, (70, b"", b"stop 70: fixnum overflow\n")),
    ("step a", 71, (71, b"", b"stop 71: heap limit\n")),
    ("step a", 72, (72, b"", b"stop 72: depth limit\n")),
    ("step a", 73, (73, b"", b"stop 73: unset variable\n")),
    ("step a", 74, (74, b"", b"stop 74: output failed\n")),
    ("step a", 64, (8, b"", b"a: exit status 64\n")),
    ("step a", 75, (8, b"", b"a: exit status 75\n")),
    ("step a", 1, (8, b"", b"a: exit status 1\n")),
    // Three instructions are three steps.
    ("step a --steps 2", 0, SPENT),
    ("step a --steps 3", 0, DONE),
];

#[test]
fn images_end(rt: HostRuntime) -> Result<(), Fail> {
    for (line, exit, wanted) in ENDINGS {
        check_image(rt.alloc(), line, &exit_with(*exit), *wanted)?;
    }
    Ok(())
}

const STUCK: &[(&[u8], &[u8])] = &[
    (&[0xC3], b"a: stuck at 00400000: fetch\n"),
    // mov rax, 123456789ABCDEF0; jmp rax
    (
        &[
            0x48, 0xB8, 0xF0, 0xDE, 0xBC, 0x9A, 0x78, 0x56, 0x34, 0x12, 0x40, 0xFF, 0xE0,
        ],
        b"a: stuck at 123456789abcdef0: fetch\n",
    ),
    (
        &[0x48, 0x8B, 0x83, 0, 0, 0, 0],
        b"a: stuck at 00400000: access\n",
    ),
    (&[0x0F, 0x84, 0, 0, 0, 0], b"a: stuck at 00400000: flag\n"),
    (
        &[0x48, 0x99, 0x48, 0xF7, 0xF9],
        b"a: stuck at 00400002: divide\n",
    ),
    (&[0x0F, 0x05], b"a: stuck at 00400000: kernel\n"),
];

#[test]
fn images_get_stuck(rt: HostRuntime) -> Result<(), Fail> {
    for (text, said) in STUCK {
        assert!(rt; text.len() <= 1000);
        check_image(rt.alloc(), "step a", text, (8, b"", said))?;
    }
    Ok(())
}
