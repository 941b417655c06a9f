//! Instructions of a body over a frame.

ghost use Rattle.std.specs.Prelude.{◌≡◌};
ghost use Rattle.sch_frames.specs.Sizes.{spreads};

use sch_control::{Member, Operation};
use sch_word::{List, MarkKind, Place};

/// An instruction of a body. There is one accumulator beside the places. The operator of a call stands in
/// `CLOSURE_REGISTER`, its operands in `ARGUMENT_REGISTERS`, in this order, and behind these in slots: of the
/// frame that the call opens, from its first slot on, or in a tail call of the frame itself. `LINK_REGISTER`
/// holds where the activation returns.
#[derive(Drop)]
pub enum Instruction {
    /// The operation's value into the accumulator.
    Do(Operation<Place>),
    /// What the accumulator holds into a place.
    Store(Place),
    /// What the second place holds into the first. At least one of them is a register.
    Copy(Place, Place),
    /// What the accumulator holds into a slot of the frame that the next call opens.
    Pass(u32),
    /// A group of closures that know one another, each into its place; and for each of them that comes into a
    /// slot, in their order, the variable that lives there, under whose mark it is stored.
    Fix(List<Member<Place>>, List<u32>),
    /// A call: whether its last operand is a list whose elements are operands, and how many operands it has.
    /// Afterwards the accumulator holds the value, the slots hold what they held, and the registers nothing
    /// that may be read.
    Call(bool, u32),
    /// The same as a tail call, which ends the body.
    Tail(bool, u32),
    /// Ends a procedure's body with what the accumulator holds.
    Return,
    /// Ends a top-level form.
    End,
    /// Goes on behind the label where the accumulator holds `#f`.
    IfFalse(u32),
    /// Goes on behind the label.
    Jump(u32),
    /// A place where jumps that stand before it go on.
    Label(u32),
    /// A mark of the instruction behind it.
    Mark(MarkKind),
}

impl Instruction {
    /// Whether it is a call that spreads its last operand.
    pub(crate) fn spreads(&self) -> bool
        ensures { result ≡ spreads self.now }
    {
        match self {
            Instruction::Call(spread, _) => *spread,
            Instruction::Tail(spread, _) => *spread,
            _ => false,
        }
    }
}
