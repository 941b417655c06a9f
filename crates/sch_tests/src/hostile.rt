//! Images that were made by hand, cut off or changed, under `step`.

use crate::outside::{Ended, Wanted, check_files, check_well, written};
use crate::program::exit_with;
use sch_word::{Bytes, Mem};
use std::alloc::Global;
use std::test::Fail;

/// The header of an executable that is entered at 400000, and the begin of its one program header: a text that may be read and
/// executed, at byte 120 of the file and at 400000.
const HEADERS: [u8; 96] = [
    0x7F, 0x45, 0x4C, 0x46, 0x02, 0x01, 0x01, 0x00, 0x00, 0x00, 0x00, 0x00, 0x00, 0x00, 0x00, 0x00,
    0x02, 0x00, 0x3E, 0x00, 0x01, 0x00, 0x00, 0x00, 0x00, 0x00, 0x40, 0x00, 0x00, 0x00, 0x00, 0x00,
    0x40, 0x00, 0x00, 0x00, 0x00, 0x00, 0x00, 0x00, 0x00, 0x00, 0x00, 0x00, 0x00, 0x00, 0x00, 0x00,
    0x00, 0x00, 0x00, 0x00, 0x40, 0x00, 0x38, 0x00, 0x01, 0x00, 0x00, 0x00, 0x00, 0x00, 0x00, 0x00,
    0x01, 0x00, 0x00, 0x00, 0x05, 0x00, 0x00, 0x00, 0x78, 0x00, 0x00, 0x00, 0x00, 0x00, 0x00, 0x00,
    0x00, 0x00, 0x40, 0x00, 0x00, 0x00, 0x00, 0x00, 0x00, 0x00, 0x40, 0x00, 0x00, 0x00, 0x00, 0x00,
];

// The file of a text whose segment has this many bytes in memory.
fn file_of(alloc: Global, text: &[u8], size: u64) -> Result<Vec<u8>, Mem> {
    let mut file = Vec::from_slice(alloc, &HEADERS)?;
    let length = text.len() as u64;
    file.extend_from_slice(&length.to_le_bytes())?;
    file.extend_from_slice(&size.to_le_bytes())?;
    // The alignment.
    file.extend_from_slice(&1u64.to_le_bytes())?;
    file.extend_from_slice(text)?;
    Ok(file)
}

// Steps a file of a text: its status, and what is said.
fn check_text(alloc: Global, line: &str, text: &[u8], wanted: Wanted) -> Result<(), Fail> {
    let file = file_of(alloc, text, text.len() as u64)?;
    check_well(alloc, line, file.as_slice(), wanted)
}

const TEXTS: &[Ended] = &[
    (&[0xC3], (8, b"", b"p.scm: stuck at 00400000: fetch\n")),
    // idiv rcx
    (
        &[0x48, 0xF7, 0xF9],
        (8, b"", b"p.scm: stuck at 00400000: divide\n"),
    ),
    // jl
    (
        &[0x0F, 0x8C, 0x05, 0x00, 0x00, 0x00],
        (8, b"", b"p.scm: stuck at 00400000: flag\n"),
    ),
    // syscall
    (
        &[0x0F, 0x05],
        (8, b"", b"p.scm: stuck at 00400000: kernel\n"),
    ),
    // mov [rbp+8], rbx
    (
        &[0x48, 0x89, 0x9D, 0x08, 0x00, 0x00, 0x00],
        (8, b"", b"p.scm: stuck at 00400000: access\n"),
    ),
    // jmp over 4096 bytes
    (
        &[0xE9, 0x00, 0x10, 0x00, 0x00],
        (8, b"", b"p.scm: stuck at 00401005: fetch\n"),
    ),
    // mov rax, 800000000000; jmp rax
    (
        &[
            0x48, 0xB8, 0x00, 0x00, 0x00, 0x00, 0x00, 0x80, 0x00, 0x00, 0x40, 0xFF, 0xE0,
        ],
        (8, b"", b"p.scm: stuck at 0000800000000000: fetch\n"),
    ),
];

#[test]
fn texts_of_machine_code_get_stuck(rt: HostRuntime) -> Result<(), Fail> {
    for (text, wanted) in TEXTS {
        check_text(rt.alloc(), "step p.scm", text, *wanted)?;
    }
    Ok(())
}

/// The status with which a text exits, and what is wanted.
const EXITS: &[(u8, Wanted)] = &[
    (0, (0, b"", b"")),
    (42, (8, b"", b"p.scm: exit status 42\n")),
    (71, (71, b"", b"stop 71: heap limit\n")),
];

/// A jump to itself.
const JUMP: [u8; 5] = [0xE9, 0xFB, 0xFF, 0xFF, 0xFF];

const SPENT: Wanted = (9, b"", b"steps spent\n");

// Those that exit, and a jump to itself.
#[test]
fn texts_of_machine_code_end(rt: HostRuntime) -> Result<(), Fail> {
    for (status, wanted) in EXITS {
        check_text(rt.alloc(), "step p.scm", &exit_with(*status), *wanted)?;
    }
    check_text(rt.alloc(), "step p.scm --steps 10", &JUMP, SPENT)
}

// A file with another byte at a place.
fn changed(alloc: Global, file: &[u8], place: usize, byte: u8) -> Result<Vec<u8>, Fail> {
    let mut other = Vec::from_slice(alloc, file)?;
    let at = other.get_mut(place).ok_or("too short")?;
    *at = byte;
    Ok(other)
}

// The image of a small program.
fn small_image(alloc: Global) -> Result<Bytes, Fail> {
    written(alloc, "compile p.scm p", b"(display (+ 1 2))(newline)")
}

const CUTS: &[(usize, &[u8])] = &[
    (0, b"p.scm: short\n"),
    (63, b"p.scm: short\n"),
    (64, b"p.scm: segment 0\n"),
    (119, b"p.scm: segment 0\n"),
    (175, b"p.scm: segment 0\n"),
];

// Steps an image that is whole, or cut off.
fn check_cuts(alloc: Global, image: &[u8]) -> Result<(), Fail> {
    let line = "step p.scm";
    check_well(alloc, line, image, (0, b"3\n", b""))?;
    for (length, said) in CUTS {
        let begun = image.get(..*length).ok_or("too short")?;
        check_well(alloc, line, begun, (8, b"", said))?;
    }
    let (_, begun) = image.split_last().ok_or("no bytes")?;
    check_well(alloc, line, begun, (8, b"", b"p.scm: segment 1\n"))
}

#[test]
fn a_compiled_image_is_cut_off(rt: HostRuntime) -> Result<(), Fail> {
    let image = small_image(rt.alloc())?;
    check_cuts(rt.alloc(), image.as_slice())
}

/// A place, its byte, and what is said: the number of the program headers is another, or the type of the second one.
const CHANGES: &[(usize, u8, &[u8])] = &[
    (56, 17, b"p.scm: wrong machine\n"),
    (120, 3, b"p.scm: segment 1\n"),
];

// Steps an image with another byte at a place.
fn check_changed(alloc: Global, image: &[u8], change: (usize, u8, &[u8])) -> Result<(), Fail> {
    let (place, byte, said) = change;
    let other = changed(alloc, image, place, byte)?;
    check_well(alloc, "step p.scm", other.as_slice(), (8, b"", said))
}

#[test]
fn a_compiled_image_is_changed(rt: HostRuntime) -> Result<(), Fail> {
    let image = small_image(rt.alloc())?;
    for change in CHANGES {
        check_changed(rt.alloc(), image.as_slice(), *change)?;
    }
    Ok(())
}

const NO_IMAGES: &[Ended] = &[
    (&[b' '; 10], (8, b"", b"p.scm: short\n")),
    (&[b' '; 64], (8, b"", b"p.scm: not ELF\n")),
];

const TOO_LARGE: Wanted = (8, b"", b"p.scm: too large\n");

// Files of no image, and one with more than 3 GiB of memory.
#[test]
fn files_of_no_image(rt: HostRuntime) -> Result<(), Fail> {
    check_files(rt.alloc(), "step p.scm", NO_IMAGES)?;
    let large = file_of(rt.alloc(), &[0xC3], 3_221_225_473)?;
    check_well(rt.alloc(), "step p.scm", large.as_slice(), TOO_LARGE)
}
