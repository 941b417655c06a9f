//! The figures of a program, and the text in which they are printed.

ghost use Rattle.std.specs.Prelude.{◌≡◌, IfOk};
ghost use Rattle.sch_cli.specs.Figures.{figures_text};

use sch_listing::write_number_line;
use sch_word::{Bytes, Mem};
use std::alloc::Global;

/// What is told of a program that was compiled and run.
#[derive(Clone, Copy)]
pub struct Figures {
    /// The bytes of its source.
    pub source: u64,
    /// The bytes of its file.
    pub image: u64,
    /// The instructions of its text.
    pub instructions: u64,
    /// The bytes that it wrote.
    pub output: u64,
    /// The status with which it exited.
    pub status: u8,
}

/// The figures, each on a line: `source 108283`.
pub fn print_figures(alloc: Global, figures: Figures) -> Result<Bytes, Mem>
    ensures { IfOk result (λ text. text ≡ figures_text figures) }
{
    let mut text = Bytes::new(alloc);
    write_number_line(&mut text, b"source", figures.source)?;
    write_number_line(&mut text, b"image", figures.image)?;
    write_number_line(&mut text, b"instructions", figures.instructions)?;
    write_number_line(&mut text, b"output", figures.output)?;
    write_number_line(&mut text, b"status", u64::from(figures.status))?;
    Ok(text)
}
