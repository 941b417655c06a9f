//! Builds the program of a source.

ghost use Rattle.std.specs.Prelude.{◌≤◌, length, IfOk, IfErr};
ghost use Rattle.sch_elf.specs.Stands.{StandsFor};
ghost use Rattle.sch_elf.specs.declared.image.Image.{Image as TheImage};
ghost use Rattle.sch_prelude.specs.LibraryText.{library_text};
ghost use Rattle.sch_driver.specs.Causes.{max_source_size};
ghost use Rattle.sch_driver.specs.Compiled.{IsCompiled};
ghost use Rattle.sch_listing.specs.ListingText.{IsPrintable};
ghost use Rattle.sch_cli.specs.Builds.{HasFile, IsFileOf};
ghost use Rattle.sch_cli.specs.Refusals.{IsRefused};

use crate::failure::Failure;
use sch_driver::{Compiled, compile};
use sch_elf::{Image, ImageError, read_image};
use sch_word::{Bytes, Limits, Mem};
use std::alloc::Global;

/// The file that is compiled of a source under these limits, with its listing, or why there is none.
pub fn build_listed(alloc: Global, text: &[u8], limits: Limits) -> Result<Compiled, Failure>
    requires { length text.now ≤ max_source_size }
    ensures made { IfOk result (λ c. IsCompiled library_text text.now limits.heap limits.depth c.file c.listing) }
    ensures printable { IfOk result (λ c. IsPrintable c.listing) }
    ensures refused { IfErr result (IsRefused text.now limits.depth) }
{
    Ok(compile(alloc, text, limits)?)
}

/// The file that is compiled of a source under these limits, or why there is none.
pub fn build(alloc: Global, text: &[u8], limits: Limits) -> Result<Bytes, Failure>
    requires { length text.now ≤ max_source_size }
    ensures made { IfOk result (IsFileOf text.now limits.heap limits.depth) }
    ensures refused { IfErr result (IsRefused text.now limits.depth) }
{
    let compiled = build_listed(alloc, text, limits)?;
    Ok(compiled.file)
}

/// The image that this file stands for.
pub fn image_of(alloc: Global, text: &[u8], limits: Limits) -> Result<Image, Failure>
    requires { length text.now ≤ max_source_size }
    ensures made { IfOk result (HasFile text.now limits.heap limits.depth) }
    ensures refused { IfErr result (IsRefused text.now limits.depth) }
{
    let file = build(alloc, text, limits)?;
    let image = image_in(alloc, file.as_slice())?;
    Ok(image)
}

/// The image that a file stands for. The only error is out of memory.
pub fn image_in(alloc: Global, file: &[u8]) -> Result<Image, Mem>
    requires { (image : TheImage) × StandsFor file.now image }
    ensures { IfOk result (StandsFor file.now) }
{
    match read_image(alloc, file) {
        Ok(image) => Ok(image),
        Err(ImageError::Memory) => Err(Mem),
        // A file that stands for an image fails none of the tests.
        Err(_) => unreachable!(),
    }
}
