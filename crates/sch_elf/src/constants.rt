//! The constants of ELF-64 by their names (ELF-64 Object File Format, version 1.5; System V ABI, AMD64
//! supplement), and the limits on what is read and written.

const ELFCLASS64: u8 = 2;

const ELFDATA2LSB: u8 = 1;

pub(crate) const EV_CURRENT: u8 = 1;

/// How `e_ident` begins: the magic number, the class, the data encoding and the version.
pub(crate) const IDENTIFICATION: [u8; 7] = [
    0x7F,
    b'E',
    b'L',
    b'F',
    ELFCLASS64,
    ELFDATA2LSB,
    EV_CURRENT,
];

/// `e_type` of an executable.
pub(crate) const ET_EXEC: u16 = 2;

/// `e_machine` of x86-64.
pub(crate) const EM_X86_64: u16 = 62;

/// `p_type` of a segment that is loaded.
pub(crate) const PT_LOAD: u32 = 1;

pub(crate) const PT_DYNAMIC: u32 = 2;

pub(crate) const PT_INTERP: u32 = 3;

/// The bits of `p_flags`.
pub(crate) const PF_X: u32 = 0x1;

pub(crate) const PF_W: u32 = 0x2;

pub(crate) const PF_R: u32 = 0x4;

/// The size of Elf64_Ehdr in bytes.
pub(crate) const FILE_HEADER_SIZE: u16 = 64;

/// The size of Elf64_Phdr in bytes.
pub(crate) const PROGRAM_HEADER_SIZE: u16 = 56;

/// The size of a page in bytes.
pub(crate) const PAGE_SIZE: u64 = 0x1000;

pub(crate) const MAX_PROGRAM_HEADERS: u16 = 16;

pub(crate) const MAX_SEGMENTS: usize = 8;

/// The most bytes of memory that all segments of an image have together: 3 GiB.
pub(crate) const MAX_IMAGE_SIZE: u64 = 0xC000_0000;
