//! Files of executables, by bytes that another program made from the words of ELF-64 and GNU readelf read.

use sch_elf::{Image, ImageError, Segment, program_image, read_image, write_image};
use sch_word::{Bytes, List, Mem};
use std::alloc::Global;
use std::test::Fail;

// the headers of a text of one byte and data of three bytes and five zeros
const HEADERS: [u8; 176] = [
    0x7F, 0x45, 0x4C, 0x46, 0x02, 0x01, 0x01, 0x00, 0x00, 0x00, 0x00, 0x00, 0x00, 0x00, 0x00, 0x00,
    0x02, 0x00, 0x3E, 0x00, 0x01, 0x00, 0x00, 0x00, 0x00, 0x00, 0x40, 0x00, 0x00, 0x00, 0x00, 0x00,
    0x40, 0x00, 0x00, 0x00, 0x00, 0x00, 0x00, 0x00, 0x00, 0x00, 0x00, 0x00, 0x00, 0x00, 0x00, 0x00,
    0x00, 0x00, 0x00, 0x00, 0x40, 0x00, 0x38, 0x00, 0x02, 0x00, 0x00, 0x00, 0x00, 0x00, 0x00, 0x00,
    0x01, 0x00, 0x00, 0x00, 0x05, 0x00, 0x00, 0x00, 0x00, 0x10, 0x00, 0x00, 0x00, 0x00, 0x00, 0x00,
    0x00, 0x00, 0x40, 0x00, 0x00, 0x00, 0x00, 0x00, 0x00, 0x00, 0x40, 0x00, 0x00, 0x00, 0x00, 0x00,
    0x01, 0x00, 0x00, 0x00, 0x00, 0x00, 0x00, 0x00, 0x01, 0x00, 0x00, 0x00, 0x00, 0x00, 0x00, 0x00,
    0x00, 0x10, 0x00, 0x00, 0x00, 0x00, 0x00, 0x00, 0x01, 0x00, 0x00, 0x00, 0x06, 0x00, 0x00, 0x00,
    0x00, 0x20, 0x00, 0x00, 0x00, 0x00, 0x00, 0x00, 0x00, 0x00, 0x00, 0x10, 0x00, 0x00, 0x00, 0x00,
    0x00, 0x00, 0x00, 0x10, 0x00, 0x00, 0x00, 0x00, 0x03, 0x00, 0x00, 0x00, 0x00, 0x00, 0x00, 0x00,
    0x08, 0x00, 0x00, 0x00, 0x00, 0x00, 0x00, 0x00, 0x00, 0x10, 0x00, 0x00, 0x00, 0x00, 0x00, 0x00,
];

fn small_program(alloc: Global) -> Result<Bytes, Mem> {
    let text = Bytes::from_slice(alloc, &[0xC3])?;
    let words = Bytes::from_slice(alloc, &[1, 2, 3])?;
    let image = program_image(alloc, text, words, 5)?;
    write_image(alloc, &image)
}

/// The parts of the file of a small program behind its headers: how many zeros there are, and what follows them.
const PARTS: [(usize, &[u8]); 2] = [(3_920, &[0xC3]), (4_095, &[1, 2, 3])];

// Whether bytes begin with as many zeros and then some bytes: what is behind these.
fn behind<'a>(bytes: &'a [u8], zeros: usize, wanted: &[u8]) -> Option<&'a [u8]> {
    let (first, rest) = bytes.split_at_checked(zeros)?;
    for byte in first {
        if *byte != 0 {
            return None;
        }
    }
    rest.strip_prefix(wanted)
}

// Whether a file is that of the small program.
fn is_small(file: &[u8]) -> bool {
    let mut rest = file.strip_prefix(HEADERS.as_slice());
    for (zeros, wanted) in PARTS {
        rest = match rest {
            Some(bytes) => behind(bytes, zeros, wanted),
            None => None,
        };
    }
    matches!(rest, Some([]))
}

#[test]
fn a_small_program_is_written(rt: HostRuntime) -> Result<(), Fail> {
    let file = small_program(rt.alloc())?;
    assert!(rt; file.len() == 8195);
    assert!(rt; is_small(file.as_slice()));
    Ok(())
}

// The file of `a_small_program_is_written`, with some bytes changed.
fn changed(alloc: Global, changes: [(usize, u8); 2]) -> Result<Vec<u8>, Mem> {
    let mut file = small_program(alloc)?.into_vec();
    for (place, byte) in changes {
        if let Some(at) = file.get_mut(place) {
            *at = byte;
        }
    }
    Ok(file)
}

// What is read of it.
fn changed_image(alloc: Global, changes: [(usize, u8); 2]) -> Result<Image, ImageError> {
    let file = changed(alloc, changes)?;
    read_image(alloc, file.as_slice())
}

fn is_text(segment: &Segment) -> bool {
    segment.bytes.as_slice() == [0xC3].as_slice() && segment.execute && !segment.write
}

fn is_data(segment: &Segment) -> bool {
    segment.bytes.as_slice() == [1, 2, 3].as_slice()
        && (segment.address, segment.zeros) == (0x1000_0000, 5)
        && segment.write
}

fn are_segments(segments: &[Segment]) -> bool {
    match segments {
        [text, data] => is_text(text) && is_data(data),
        _ => false,
    }
}

/// What does not matter: bytes 7 to 15, e_shoff, other bits of p_flags, p_paddr, a third header of another type.
const SAME: [[(usize, u8); 2]; 3] = [[(7, 3), (40, 1)], [(68, 0x0D), (88, 1)], [(56, 3), (15, 1)]];

#[test]
fn a_small_program_is_read(rt: HostRuntime) -> Result<(), Fail> {
    for changes in SAME {
        let image = changed_image(rt.alloc(), changes)?;
        let is_whole = image.entry == 0x400000 && are_segments(image.segments.as_slice());
        assert!(rt; is_whole, "at {}", changes[0].0);
    }
    Ok(())
}

/// Changes, and the fault that is found.
const FAULTS: [([(usize, u8); 2], ImageError); 3] = [
    ([(18, 3), (64, 2)], ImageError::NotThisMachine),
    ([(120, 3), (163, 0xC0)], ImageError::BadSegment(1)),
    ([(163, 0xC0), (163, 0xC0)], ImageError::TooLarge),
];

// A fault by a number: that of a segment behind 100.
fn number(fault: ImageError) -> u16 {
    match fault {
        ImageError::NotThisMachine => 1,
        ImageError::TooLarge => 2,
        ImageError::BadSegment(k) => k.saturating_add(100),
        _ => 0,
    }
}

// The fault of the changed file.
fn fault_of(alloc: Global, changes: [(usize, u8); 2]) -> u16 {
    match changed_image(alloc, changes) {
        Err(fault) => number(fault),
        Ok(_) => 0,
    }
}

#[test]
fn a_file_is_refused_for_its_fault(rt: HostRuntime) {
    for (changes, fault) in FAULTS {
        assert!(rt;
            fault_of(rt.alloc(), changes) == number(fault),
            "at {}",
            changes[0].0
        );
    }
}
