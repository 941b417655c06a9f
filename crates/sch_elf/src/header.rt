//! The headers of an ELF-64 file.

ghost use Rattle.std.specs.Prelude.{◌≡◌, ◌≤◌, ◌+◌, ◌↔◌, length, IsTrue};
ghost use Rattle.sch_elf.specs.Constants.{file_header_size, program_header_size};
ghost use Rattle.sch_elf.specs.Numbers.{number};

use crate::constants::{
    EM_X86_64, ET_EXEC, EV_CURRENT, FILE_HEADER_SIZE, MAX_PROGRAM_HEADERS, PROGRAM_HEADER_SIZE,
};
use byteorder::{ByteOrder, LittleEndian};

/// Elf64_Ehdr, the file header, without its identification and what it says of sections.
#[derive(Clone, Copy)]
pub struct FileHeader {
    pub e_type: u16,
    pub e_machine: u16,
    pub e_version: u32,
    pub e_entry: u64,
    pub e_phoff: u64,
    pub e_flags: u32,
    pub e_ehsize: u16,
    pub e_phentsize: u16,
    pub e_phnum: u16,
}

/// Elf64_Phdr, a program header.
#[derive(Clone, Copy)]
pub struct ProgramHeader {
    pub p_type: u32,
    pub p_flags: u32,
    pub p_offset: u64,
    pub p_vaddr: u64,
    pub p_paddr: u64,
    pub p_filesz: u64,
    pub p_memsz: u64,
    pub p_align: u64,
}

impl FileHeader {
    ghost use Rattle.sch_elf.specs.Elf.{file_header};
    ghost use Rattle.sch_elf.specs.Stands.{IsForThisMachine};

    /// The file header at the front of a file.
    pub fn read(file: &[u8]) -> FileHeader
        requires { file_header_size ≤ length file.now }
        ensures { result ≡ file_header file.now }
    {
        FileHeader {
            e_type: half(file, 16),
            e_machine: half(file, 18),
            e_version: word(file, 20),
            e_entry: xword(file, 24),
            e_phoff: xword(file, 32),
            e_flags: word(file, 48),
            e_ehsize: half(file, 52),
            e_phentsize: half(file, 54),
            e_phnum: half(file, 56),
        }
    }

    /// Whether this is an executable for x86-64, of the current version and without flags, with the
    /// header sizes of ELF-64 and 1 to 16 program headers.
    pub fn is_for_this_machine(&self) -> bool
        ensures { IsTrue result ↔ IsForThisMachine self.now }
    {
        self.e_type == ET_EXEC
            && self.e_machine == EM_X86_64
            && self.e_version == EV_CURRENT as u32
            && self.e_flags == 0
            && self.e_ehsize == FILE_HEADER_SIZE
            && self.e_phentsize == PROGRAM_HEADER_SIZE
            && 0 < self.e_phnum
            && self.e_phnum <= MAX_PROGRAM_HEADERS
    }
}

impl ProgramHeader {
    ghost use Rattle.sch_elf.specs.Elf.{program_header};

    /// The program header at a place of a file.
    pub fn read(file: &[u8], place: usize) -> ProgramHeader
        requires { place + program_header_size ≤ length file.now }
        ensures { result ≡ program_header file.now place }
    {
        ProgramHeader {
            p_type: word(file, place),
            p_flags: word(file, place + 4),
            p_offset: xword(file, place + 8),
            p_vaddr: xword(file, place + 16),
            p_paddr: xword(file, place + 24),
            p_filesz: xword(file, place + 32),
            p_memsz: xword(file, place + 40),
            p_align: xword(file, place + 48),
        }
    }
}

// Elf64_Half, Elf64_Word and Elf64_Xword at a place of a file
fn half(file: &[u8], place: usize) -> u16
    requires { place + 2 ≤ length file.now }
    ensures { result ≡ number 2 place file.now }
{
    LittleEndian::read_u16(file.split_at(place).1)
}

fn word(file: &[u8], place: usize) -> u32
    requires { place + 4 ≤ length file.now }
    ensures { result ≡ number 4 place file.now }
{
    LittleEndian::read_u32(file.split_at(place).1)
}

fn xword(file: &[u8], place: usize) -> u64
    requires { place + 8 ≤ length file.now }
    ensures { result ≡ number 8 place file.now }
{
    LittleEndian::read_u64(file.split_at(place).1)
}
