//! The definitions of a library.

ghost use Rattle.std.specs.Prelude.{◌≡◌};

use sch_sketch::Draft;

/// The name of the global, and the procedure that it holds from the start: how many formals it has, whether
/// the last of them takes a list of what is left, and its body.
#[derive(Drop)]
pub struct Definition<'a> {
    pub name: &'a [u8],
    pub formals: usize,
    pub rest: bool,
    pub body: Draft<'a>,
}

/// A definition of a library that a text keeps: the library has it still.
#[derive(Clone, Copy, Drop)]
pub struct KeptDefinition<'a, 'b> {
    pub name: &'a [u8],
    pub formals: usize,
    pub rest: bool,
    pub body: &'b Draft<'a>,
}
