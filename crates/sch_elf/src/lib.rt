//! Executables: images of a program's memory, and the ELF-64 files that stand for them.
#![tactic(auto)]

mod constants;
mod error;
mod header;
mod image;
mod laws;
mod program_segments;
mod read;
mod sound;
mod write;

pub use error::ImageError;
pub use header::{FileHeader, ProgramHeader};
pub use image::{Image, Segment};
pub use laws::{
    a_file_is_refused_for_one_reason, a_file_stands_for_one_image,
    a_refused_file_stands_for_no_image, an_offset_is_the_least, write_and_read,
};
pub use program_segments::program_image;
pub use read::read_image;
pub use write::write_image;
