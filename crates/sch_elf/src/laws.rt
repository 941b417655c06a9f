//! Laws of files and images, as contracts of functions that do nothing.

ghost use Rattle.std.specs.Prelude.{◌≡◌, ◌≢◌, ◌<◌, ◌≤◌, ◌%◌, ℕ, List, MatchResult, length};
ghost use Rattle.sch_elf.specs.Constants.{page_size};
ghost use Rattle.sch_elf.specs.Refused.{IsRefused};
ghost use Rattle.sch_elf.specs.Stands.{StandsFor};
ghost use Rattle.sch_elf.specs.Writing.{offset_from};
ghost use Rattle.sch_elf.specs.declared.error.ImageError.{ImageError as TheError};
ghost use Rattle.sch_elf.specs.declared.image.Image.{Image as TheImage};

use crate::error::ImageError;
use crate::image::Image;
use crate::read::read_image;
use crate::write::write_image;
use std::alloc::Global;

/// What is written of an image is read as this image.
pub fn write_and_read(alloc: Global, image: &Image) -> Result<Image, ImageError>
    requires { 0 < length image.now.segments }
    ensures { MatchResult result (λ found. found ≡ image.now) (λ error. error ≡ ImageError.Memory) }
{
    let file = write_image(alloc, image)?;
    read_image(alloc, file.as_slice())
}

/// A file stands for one image at most.
pub fn a_file_stands_for_one_image()
    ensures { (file : List ℕ) (one other : TheImage) → StandsFor file one → StandsFor file other → one ≡ other }
{}

/// A file that is refused stands for no image.
pub fn a_refused_file_stands_for_no_image()
    ensures { (file : List ℕ) (error : TheError) (image : TheImage) → IsRefused file error → error ≢ ImageError.Memory → StandsFor file image → ⊥ }
{}

/// A file is refused for one reason at most.
pub fn a_file_is_refused_for_one_reason()
    ensures { (file : List ℕ) (one other : TheError) → IsRefused file one → IsRefused file other → one ≢ ImageError.Memory → other ≢ ImageError.Memory → one ≡ other }
{}

/// The offset of a segment's bytes, which follow what ends at `end`, is the least from there on that
/// equals the segment's address modulo the size of a page.
pub fn an_offset_is_the_least()
    ensures behind { (end address : ℕ) → end ≤ offset_from end address }
    ensures congruent { (end address : ℕ) → offset_from end address % page_size ≡ address % page_size }
    ensures least { (end address other : ℕ) → end ≤ other → other % page_size ≡ address % page_size → offset_from end address ≤ other }
{}
