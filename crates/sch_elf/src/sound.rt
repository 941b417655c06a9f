//! Whether the program headers of a file are sound.

ghost use Rattle.std.specs.Prelude.{◌≡◌, ◌≤◌, ◌<◌, ◌+◌, ◌*◌, ◌%◌, ◌^◌, ◌↔◌, All, IfSome, IsNone, IsTrue, MatchOption, false, filter, length};
ghost use Rattle.sch_elf.specs.Constants.{program_header_size};
ghost use Rattle.sch_elf.specs.Elf.{file_header, first_headers, header_place, is_load, program_header};
ghost use Rattle.sch_elf.specs.Stands.{DoNotOverlap, IsLoadable, IsSound};

use crate::constants::{MAX_SEGMENTS, PROGRAM_HEADER_SIZE, PT_DYNAMIC, PT_INTERP, PT_LOAD};
use crate::header::{FileHeader, ProgramHeader};

/// The program header of a number, if it is sound.
pub fn sound_header(
    file: &[u8],
    header: &FileHeader,
    index: u16,
    earlier: &[ProgramHeader],
) -> Option<ProgramHeader>
    requires header { header.now ≡ file_header file.now }
    requires earlier { earlier.now ≡ filter is_load (first_headers file.now index) }
    ensures some { IfSome result (λ found. found ≡ program_header file.now (header_place file.now index)) }
    ensures sound { IfSome result (λ _. IsSound file.now index) }
    ensures none { IsNone result → IsSound file.now index → ⊥ }
{
    let place = place_of(file, header.e_phoff, index)?;
    let found = ProgramHeader::read(file, place);
    if found.p_type == PT_DYNAMIC || found.p_type == PT_INTERP {
        return None;
    }
    if found.p_type == PT_LOAD && !is_loadable(&found, file.len() as u64, earlier) {
        return None;
    }
    Some(found)
}

// The place of a program header in a table, if all of it is in the file.
fn place_of(file: &[u8], table: u64, index: u16) -> Option<usize>
    ensures { MatchOption result (length file.now < table + program_header_size * index + program_header_size)
        (λ place. (place ≡ table + program_header_size * index) × (place + program_header_size ≤ length file.now)) }
{
    let size = file.len() as u64;
    let before = PROGRAM_HEADER_SIZE as u64 * index as u64;
    if table > size || size - table < before + PROGRAM_HEADER_SIZE as u64 {
        return None;
    }
    Some((table + before) as usize)
}

// Whether a PT_LOAD is loadable in a file of `size` bytes, after those before it.
fn is_loadable(header: &ProgramHeader, size: u64, earlier: &[ProgramHeader]) -> bool
    ensures { IsTrue result ↔ IsLoadable size earlier.now header.now }
{
    if !has_contents(header, size) {
        return false;
    }
    if !is_placed(header) {
        return false;
    }
    if earlier.len() >= MAX_SEGMENTS {
        return false;
    }
    is_apart(header, earlier)
}

// Whether its bytes are in the file, and no more than its memory.
fn has_contents(header: &ProgramHeader, size: u64) -> bool
    ensures { IsTrue result ↔ ((header.now.p_filesz ≤ header.now.p_memsz) × (header.now.p_offset + header.now.p_filesz ≤ size)) }
{
    header.p_filesz <= header.p_memsz && ends_by(header.p_offset, header.p_filesz, size)
}

// Whether its alignment is kept, and it ends in the lower half of the address space.
fn is_placed(header: &ProgramHeader) -> bool
    ensures { IsTrue result ↔ ((1 < header.now.p_align → header.now.p_vaddr % header.now.p_align ≡ header.now.p_offset % header.now.p_align)
        × (header.now.p_vaddr + header.now.p_memsz ≤ 2 ^ 47)) }
{
    is_aligned(header) && ends_by(header.p_vaddr, header.p_memsz, 1 << 47)
}

// Whether `size` bytes from a place on end by a limit.
fn ends_by(place: u64, size: u64, limit: u64) -> bool
    ensures { IsTrue result ↔ (place + size ≤ limit) }
{
    place <= limit && size <= limit - place
}

fn is_aligned(header: &ProgramHeader) -> bool
    ensures { IsTrue result ↔ (1 < header.now.p_align → header.now.p_vaddr % header.now.p_align ≡ header.now.p_offset % header.now.p_align) }
{
    header.p_align <= 1 || header.p_vaddr % header.p_align == header.p_offset % header.p_align
}

// Whether a segment overlaps none before it.
fn is_apart(header: &ProgramHeader, earlier: &[ProgramHeader]) -> bool
    ensures { IsTrue result ↔ All (λ other. DoNotOverlap other header.now) earlier.now }
{
    for other in earlier {
        if overlap(other, header) {
            return false;
        }
    }
    true
}

// Whether some address lies in both.
fn overlap(one: &ProgramHeader, other: &ProgramHeader) -> bool
    ensures yes { IsTrue result → DoNotOverlap one.now other.now → ⊥ }
    ensures no { result ≡ false → DoNotOverlap one.now other.now }
{
    lies_in(one.p_vaddr.max(other.p_vaddr), one) && lies_in(one.p_vaddr.max(other.p_vaddr), other)
}

// Whether an address from the segment's first on lies in the segment.
fn lies_in(address: u64, header: &ProgramHeader) -> bool
    requires { header.now.p_vaddr ≤ address }
    ensures { IsTrue result ↔ (address < header.now.p_vaddr + header.now.p_memsz) }
{
    address - header.p_vaddr < header.p_memsz
}
