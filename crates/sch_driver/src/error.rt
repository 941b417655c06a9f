//! Why a text is not compiled.

ghost use Rattle.std.specs.Prelude.{◌≡◌};
ghost use Rattle.sch_driver.specs.Assembled.{of_assembly};
ghost use Rattle.sch_driver.specs.Causes.{of_expanding, of_reading};
ghost use Rattle.sch_driver.specs.declared.error.CompileError.TheVariants as error;

use sch_asm::AsmError;
use sch_core::CoreError;
use sch_read::ReadError;
use sch_word::Mem;
use thiserror::Error;

/// Which text an error is of.
#[derive(Clone, Copy, Debug)]
pub enum Part {
    /// The library's text.
    Library,
    /// The text that is compiled.
    User,
}

/// Why a text is not compiled.
#[derive(Debug, Drop, Error)]
pub enum CompileError {
    /// The reader does not accept the text, for another cause than a lack of memory.
    #[error("not read")]
    Read(Part, ReadError),
    /// The data have no core program, or the library's no definitions, for another cause than a lack of memory.
    #[error("not expanded")]
    Core(Part, CoreError),
    /// The text of the image would have this number of bytes, more than 16,777,216.
    #[error("text of {0} bytes")]
    TextTooLarge(u64),
    /// Frames of this number of words would take more than 1,073,741,824 bytes of stack at the depth that is
    /// asked for.
    #[error("frames of {0} words")]
    StackTooLarge(u64),
    /// Out of memory, wherever it came up.
    #[error("out of memory")]
    Memory,
}

/// The error of a part that is not read.
pub(crate) fn of_reading(part: Part, cause: ReadError) -> CompileError
    ensures { result ≡ of_reading part cause }
{
    match cause {
        ReadError::Memory => CompileError::Memory,
        _ => CompileError::Read(part, cause),
    }
}

/// The error of a part that is not expanded.
pub(crate) fn of_expanding(part: Part, cause: CoreError) -> CompileError
    ensures { result ≡ of_expanding part cause }
{
    match cause {
        CoreError::Memory => CompileError::Memory,
        _ => CompileError::Core(part, cause),
    }
}

impl From<Mem> for CompileError {
    ghost from_gives = { λ _ e. e ≡ error.Memory };

    fn from(_cause: Mem) -> CompileError {
        CompileError::Memory
    }
}

impl From<AsmError> for CompileError {
    ghost from_gives = { λ cause e. e ≡ of_assembly cause };

    fn from(cause: AsmError) -> CompileError {
        match cause {
            AsmError::TextTooLarge(bytes) => CompileError::TextTooLarge(bytes),
            AsmError::Memory => CompileError::Memory,
        }
    }
}
