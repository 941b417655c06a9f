//! Images to files.

ghost use Rattle.std.specs.Prelude.{◌≡◌, ◌≤◌, ◌<◌, ◌+◌, ◌-◌, ◌*◌, ◌%◌, ◌^◌, ◌++◌, ℕ, List, [], ◌∷◌, length, replicate, All, IfOk, OnOk};
ghost use Rattle.std.specs.List.{flat_map};
ghost use Rattle.byteorder.specs.Endian.{little_bytes};
ghost use Rattle.sch_elf.specs.Constants.{EM_X86_64, ET_EXEC, EV_CURRENT, PT_LOAD, file_header_size, page_size, program_header_size};
ghost use Rattle.sch_elf.specs.Layout.{size_of};
ghost use Rattle.sch_elf.specs.Stands.{StandsFor};
ghost use Rattle.sch_elf.specs.Writing.{contents, fields, file_header_bytes, flags_of, image_bytes, load, need, offset_from, placed, program_header_bytes, start};

use crate::constants;
use crate::image::{Image, Segment};
use byteorder::{ByteOrder, LittleEndian};
use sch_word::{Bytes, Mem};
use std::alloc::Global;

/// The bytes of an ELF-64 file that stands for the image: the file header, a PT_LOAD header for each
/// segment in order, and then the segments' bytes, each at the least offset that equals its address
/// modulo the size of a page.
pub fn write_image(alloc: Global, image: &Image) -> Result<Bytes, Mem>
    requires { 0 < length image.now.segments }
    ensures bytes { IfOk result (λ file. file ≡ image_bytes image.now) }
    ensures stands { IfOk result (λ file. StandsFor file image.now) }
{
    let segments = image.segments.as_slice();
    let mut file = Vec::with_capacity(alloc, room(segments) as usize)?;
    put_file_header(&mut file, image.entry, segments.len() as u16)?;
    put_program_headers(&mut file, segments)?;
    put_contents(&mut file, segments)?;
    Ok(Bytes::from_vec(file))
}

// As many bytes are enough for the file of some segments.
fn room(segments: &[Segment]) -> u64
    requires few { length segments.now ≤ 8 }
    requires room { need segments.now < 2 ^ 32 }
    ensures { result ≡ start segments.now + need segments.now }
{
    let headers = constants::PROGRAM_HEADER_SIZE as u64 * segments.len() as u64;
    let mut size = constants::FILE_HEADER_SIZE as u64 + headers;
    for segment in segments {
        size += constants::PAGE_SIZE + segment.bytes.len() as u64;
    }
    size
}

fn put_file_header(file: &mut Vec<u8>, entry: u64, count: u16) -> Result<(), Mem>
    ensures { OnOk result (file.new.items ≡ file.old.items ++ file_header_bytes entry count) }
{
    file.extend_from_slice(&constants::IDENTIFICATION)?;
    file.extend_from_slice(&[0; 9])?;
    put_kind(file, entry)?;
    put_tables(file)?;
    put_counts(file, count)
}

// ET_EXEC, EM_X86_64, EV_CURRENT, and the entry
fn put_kind(file: &mut Vec<u8>, entry: u64) -> Result<(), Mem>
    ensures { OnOk result (file.new.items ≡ file.old.items ++ fields ((2, ET_EXEC) ∷ (2, EM_X86_64) ∷ (4, EV_CURRENT) ∷ (8, entry) ∷ [])) }
{
    put_half(file, constants::ET_EXEC)?;
    put_half(file, constants::EM_X86_64)?;
    put_word(file, constants::EV_CURRENT as u32)?;
    put_xword(file, entry)
}

// where the program headers are, no section headers, no flags, and the size of this header
fn put_tables(file: &mut Vec<u8>) -> Result<(), Mem>
    ensures { OnOk result (file.new.items ≡ file.old.items ++ fields ((8, file_header_size) ∷ (8, 0) ∷ (4, 0) ∷ (2, file_header_size) ∷ [])) }
{
    put_xword(file, constants::FILE_HEADER_SIZE as u64)?;
    put_xword(file, 0)?;
    put_word(file, 0)?;
    put_half(file, constants::FILE_HEADER_SIZE)
}

// the size and the number of the program headers, and nothing of sections
fn put_counts(file: &mut Vec<u8>, count: u16) -> Result<(), Mem>
    ensures { OnOk result (file.new.items ≡ file.old.items ++ fields ((2, program_header_size) ∷ (2, count) ∷ (2, 0) ∷ (2, 0) ∷ (2, 0) ∷ [])) }
{
    put_half(file, constants::PROGRAM_HEADER_SIZE)?;
    put_half(file, count)?;
    put_half(file, 0)?;
    put_half(file, 0)?;
    put_half(file, 0)
}

fn put_program_headers(file: &mut Vec<u8>, segments: &[Segment]) -> Result<(), Mem>
    requires few { length segments.now ≤ 8 }
    requires room { need segments.now < 2 ^ 32 }
    requires sizes { All (λ segment. size_of segment < 2 ^ 32) segments.now }
    ensures { OnOk result (file.new.items ≡ file.old.items ++ flat_map program_header_bytes (placed (start segments.now) segments.now)) }
{
    let headers = constants::PROGRAM_HEADER_SIZE as u64 * segments.len() as u64;
    let mut end = constants::FILE_HEADER_SIZE as u64 + headers;
    for segment in segments {
        let offset = next_offset(end, segment.address);
        put_program_header(file, offset, segment)?;
        end = offset + segment.bytes.len() as u64;
    }
    Ok(())
}

fn put_program_header(file: &mut Vec<u8>, offset: u64, segment: &Segment) -> Result<(), Mem>
    requires { size_of segment.now < 2 ^ 64 }
    ensures { OnOk result (file.new.items ≡ file.old.items ++ program_header_bytes (load offset segment.now)) }
{
    put_place(file, offset, segment)?;
    put_sizes(file, segment)
}

// PT_LOAD, the rights, the offset and the address
fn put_place(file: &mut Vec<u8>, offset: u64, segment: &Segment) -> Result<(), Mem>
    ensures { OnOk result (file.new.items ≡ file.old.items ++ fields ((4, PT_LOAD) ∷ (4, flags_of segment.now) ∷ (8, offset) ∷ (8, segment.now.address) ∷ [])) }
{
    put_word(file, constants::PT_LOAD)?;
    put_word(file, flags(segment))?;
    put_xword(file, offset)?;
    put_xword(file, segment.address)
}

// the physical address, the sizes in the file and in memory, and the alignment
fn put_sizes(file: &mut Vec<u8>, segment: &Segment) -> Result<(), Mem>
    requires { size_of segment.now < 2 ^ 64 }
    ensures { OnOk result (file.new.items ≡ file.old.items ++ fields ((8, segment.now.address) ∷ (8, length segment.now.bytes) ∷ (8, size_of segment.now) ∷ (8, page_size) ∷ [])) }
{
    let size = segment.bytes.len() as u64;
    put_xword(file, segment.address)?;
    put_xword(file, size)?;
    put_xword(file, size + segment.zeros)?;
    put_xword(file, constants::PAGE_SIZE)
}

fn put_contents(file: &mut Vec<u8>, segments: &[Segment]) -> Result<(), Mem>
    requires { length file.old.items + need segments.now < 2 ^ 63 }
    ensures { OnOk result (file.new.items ≡ file.old.items ++ contents (length file.old.items) segments.now) }
{
    for segment in segments {
        put_segment(file, segment)?;
    }
    Ok(())
}

// the gap before a segment's bytes, and the bytes
fn put_segment(file: &mut Vec<u8>, segment: &Segment) -> Result<(), Mem>
    requires { length file.old.items < 2 ^ 63 }
    ensures { OnOk result (file.new.items ≡ file.old.items ++ (replicate (offset_from (length file.old.items) segment.now.address - length file.old.items) 0 ++ segment.now.bytes)) }
{
    let offset = next_offset(file.len() as u64, segment.address);
    file.resize(offset as usize, 0)?;
    file.extend_from_slice(segment.bytes.as_slice())?;
    Ok(())
}

// The least offset from `end` on that equals the address modulo the size of a page.
fn next_offset(end: u64, address: u64) -> u64
    requires { end < 2 ^ 63 }
    ensures value { result ≡ offset_from end address }
    ensures near { result < end + page_size }
{
    let page = constants::PAGE_SIZE;
    end + (address % page + (page - end % page)) % page
}

// The rights of a segment, as `p_flags`.
fn flags(segment: &Segment) -> u32
    ensures { result ≡ flags_of segment.now }
{
    let execute = if segment.execute { constants::PF_X } else { 0 };
    let write = if segment.write { constants::PF_W } else { 0 };
    let read = if segment.read { constants::PF_R } else { 0 };
    execute + write + read
}

fn put_half(file: &mut Vec<u8>, n: u16) -> Result<(), Mem>
    ensures { OnOk result (file.new.items ≡ file.old.items ++ little_bytes 2 n) }
{
    let mut bytes = [0; 2];
    LittleEndian::write_u16(&mut bytes, n);
    file.extend_from_slice(&bytes)?;
    Ok(())
}

fn put_word(file: &mut Vec<u8>, n: u32) -> Result<(), Mem>
    ensures { OnOk result (file.new.items ≡ file.old.items ++ little_bytes 4 n) }
{
    let mut bytes = [0; 4];
    LittleEndian::write_u32(&mut bytes, n);
    file.extend_from_slice(&bytes)?;
    Ok(())
}

fn put_xword(file: &mut Vec<u8>, n: u64) -> Result<(), Mem>
    ensures { OnOk result (file.new.items ≡ file.old.items ++ little_bytes 8 n) }
{
    let mut bytes = [0; 8];
    LittleEndian::write_u64(&mut bytes, n);
    file.extend_from_slice(&bytes)?;
    Ok(())
}
