//! From a text to an executable: the passes one after the other.
#![tactic(auto)]

ghost use Rattle.std.specs.Prelude.{◌≡◌, ◌≤◌, length, IfOk, IfErr};
ghost use Rattle.sch_lang.specs.Tree.{Source};
ghost use Rattle.sch_prelude.specs.LibraryText.{library_text};
ghost use Rattle.sch_driver.specs.Bounds.{ExitsInTime, IsSmall};
ghost use Rattle.sch_driver.specs.Causes.{IsErrorOf, Means, max_source_size};
ghost use Rattle.sch_driver.specs.Compiled.{IsCompiled};
ghost use Rattle.sch_driver.specs.declared.error.CompileError.TheVariants as error;
ghost use Rattle.sch_listing.specs.ListingText.{IsPrintable};

mod assembly;
mod cycles;
mod error;
mod laws;
mod listing;
mod reading;

use crate::assembly::assemble;
use crate::reading::read_program;
pub use error::{CompileError, Part};
pub use laws::{a_text_has_one_meaning, sizes_are_bounded, steps_are_within_round_steps};
pub use listing::Compiled;
use sch_elf::write_image;
use sch_listing::Listing;
use sch_passes::control_program;
use sch_prelude::library_text;
use sch_word::Limits;
use std::alloc::Global;

/// The most bytes of a source: 1 MiB.
pub const MAX_SOURCE_SIZE: u64 = 1 << 20;

/// Compiles a text: the file, an executable for x86-64, does what the text means with the library, under limits of heap
/// and depth and with the orders that are listed.
///
/// An error has its cause in the text, or in that of the library, or is out of memory. No pass is quadratic in the text.
pub fn compile(alloc: Global, text: &[u8], limits: Limits) -> Result<Compiled, CompileError>
    requires short { length text.now ≤ max_source_size }
    ensures compiled { IfOk result (λ c. IsCompiled library_text text.now limits.heap limits.depth c.file c.listing) }
    ensures refused { IfErr result (IsErrorOf library_text text.now limits.depth) }
    // A text that means a small program is compiled, unless there is no memory.
    ensures complete { (p : Source) → Means library_text text.now p → IsSmall p limits.depth → IfErr result (λ e. e ≡ error.Memory) }
    // What is compiled ends in time, by a bound in round numbers.
    ensures in_time { IfOk result (λ c. ExitsInTime library_text text.now limits.heap limits.depth c.file c.listing) }
    // The listing has a text.
    ensures printable { IfOk result (λ c. IsPrintable c.listing) }
{
    let program = read_program(alloc, library_text(), text)?;
    let control = control_program(alloc, &program)?;
    drop(program);
    let assembled = assemble(alloc, control, limits)?;
    let file = write_image(alloc, &assembled.image)?;
    Ok(Compiled {
        file,
        listing: Listing {
            bodies: assembled.bodies,
            orders: assembled.orders,
            cycles: assembled.cycles,
            frame_words: assembled.frame_words,
            instructions: assembled.instructions,
            marks: assembled.marks,
        },
    })
}
