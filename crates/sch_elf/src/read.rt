//! Files to images.

ghost use Rattle.std.specs.Prelude.{◌≡◌, ◌≢◌, ◌≤◌, ◌<◌, ◌+◌, ◌++◌, ◌↔◌, [], ◌∷◌, ℕ, All, IfErr, IfOk, IsTrue, MatchResult, OnOk, filter, length, map, sum_by, take};
ghost use Rattle.sch_elf.specs.Constants.{file_header_size, identification, max_image_size};
ghost use Rattle.sch_elf.specs.Elf.{file_header, first_headers, is_load};
ghost use Rattle.sch_elf.specs.Refused.{HasHeader, IsRefused};
ghost use Rattle.sch_elf.specs.Stands.{IsSound, StandsFor, has_flag, file_segment, loads};
ghost use Rattle.sch_elf.specs.declared.image.Image.{Image as TheImage};

use crate::constants::{
    FILE_HEADER_SIZE, IDENTIFICATION, MAX_IMAGE_SIZE, PF_R, PF_W, PF_X, PT_LOAD,
};
use crate::error::ImageError;
use crate::header::{FileHeader, ProgramHeader};
use crate::image::{Image, Segment};
use crate::sound::sound_header;
use sch_word::{Bytes, List, Mem};
use std::alloc::Global;

/// The image that the bytes of an ELF-64 file stand for, or why they stand for none: the first of the
/// tests of `ImageError` that fails.
pub fn read_image(alloc: Global, file: &[u8]) -> Result<Image, ImageError>
    ensures stands { IfOk result (λ image. StandsFor file.now image) }
    ensures refused { IfErr result (λ error. IsRefused file.now error) }
    ensures only { (image : TheImage) → StandsFor file.now image → MatchResult result (λ found. found ≡ image) (λ error. error ≡ ImageError.Memory) }
{
    let header = read_header(file)?;
    let loads = read_loads(alloc, file, &header)?;
    if !are_small(&loads) {
        return Err(ImageError::TooLarge);
    }
    let segments = read_segments(alloc, file, &loads)?;
    Ok(Image {
        entry: header.e_entry,
        segments,
    })
}

fn read_header(file: &[u8]) -> Result<FileHeader, ImageError>
    ensures ok { IfOk result (λ header. HasHeader file.now × (header ≡ file_header file.now)) }
    ensures err { IfErr result (λ error. IsRefused file.now error × (error ≢ ImageError.Memory)) }
{
    if file.len() < FILE_HEADER_SIZE as usize {
        return Err(ImageError::Short);
    }
    if !is_elf(file) {
        return Err(ImageError::NotElf);
    }
    let header = FileHeader::read(file);
    if !header.is_for_this_machine() {
        return Err(ImageError::NotThisMachine);
    }
    Ok(header)
}

fn is_elf(file: &[u8]) -> bool
    requires { file_header_size ≤ length file.now }
    ensures { IsTrue result ↔ (take 7 file.now ≡ identification) }
{
    file.split_at(IDENTIFICATION.len()).0 == IDENTIFICATION.as_slice()
}

// The PT_LOAD headers, if each program header is sound.
fn read_loads(
    alloc: Global,
    file: &[u8],
    header: &FileHeader,
) -> Result<Vec<ProgramHeader>, ImageError>
    requires header { header.now ≡ file_header file.now }
    requires has { HasHeader file.now }
    ensures loads { IfOk result (λ found. found.items ≡ loads file.now) }
    ensures sound { IfOk result (λ _. (i : ℕ) → i < (file_header file.now).e_phnum → IsSound file.now i) }
    ensures err { IfErr result (λ error. IsRefused file.now error) }
{
    let mut loads = Vec::new(alloc);
    for index in 0..header.e_phnum {
        match sound_header(file, header, index, &loads) {
            Some(found) => keep_load(&mut loads, found)?,
            None => return Err(ImageError::BadSegment(index)),
        }
    }
    Ok(loads)
}

// Adds a header, if it is a PT_LOAD.
fn keep_load(loads: &mut Vec<ProgramHeader>, header: ProgramHeader) -> Result<(), Mem>
    ensures { OnOk result (loads.new.items ≡ loads.old.items ++ filter is_load (header ∷ [])) }
{
    if header.p_type == PT_LOAD {
        loads.push(header)?;
    }
    Ok(())
}

// Whether they have together at most 3 GiB of memory.
fn are_small(loads: &[ProgramHeader]) -> bool
    ensures { IsTrue result ↔ (sum_by (λ header. header.p_memsz) loads.now ≤ max_image_size) }
{
    let mut room = MAX_IMAGE_SIZE;
    for header in loads {
        if header.p_memsz > room {
            return false;
        }
        room -= header.p_memsz;
    }
    true
}

fn read_segments(alloc: Global, file: &[u8], loads: &[ProgramHeader]) -> Result<List<Segment>, Mem>
    requires { All (λ header. (header.p_filesz ≤ header.p_memsz) × (header.p_offset + header.p_filesz ≤ length file.now)) loads.now }
    ensures { IfOk result (λ segments. segments ≡ map (file_segment file.now) loads.now) }
{
    let mut segments = List::new(alloc);
    for header in loads {
        let segment = read_segment(alloc, file, header)?;
        segments.push(segment)?;
    }
    Ok(segments)
}

fn read_segment(alloc: Global, file: &[u8], header: &ProgramHeader) -> Result<Segment, Mem>
    requires fills { header.now.p_filesz ≤ header.now.p_memsz }
    requires inside { header.now.p_offset + header.now.p_filesz ≤ length file.now }
    ensures { IfOk result (λ segment. segment ≡ file_segment file.now header.now) }
{
    let rest = file.split_at(header.p_offset as usize).1;
    let bytes = rest.split_at(header.p_filesz as usize).0;
    Ok(Segment {
        address: header.p_vaddr,
        read: has_bit(header, PF_R),
        write: has_bit(header, PF_W),
        execute: has_bit(header, PF_X),
        bytes: Bytes::from_slice(alloc, bytes)?,
        zeros: header.p_memsz - header.p_filesz,
    })
}

fn has_bit(header: &ProgramHeader, bit: u32) -> bool
    requires { 0 < bit }
    ensures { result ≡ has_flag bit header.now }
{
    header.p_flags / bit % 2 == 1
}
