//! From placed bodies to frames: where the slots of variables go in a frame, and where those in registers are saved.
#![tactic(auto)]

ghost use Rattle.sch_homes.specs.Laws.{HomesFramed, HomesPlaced, IsPlaced, MovesAreFew};
ghost use Rattle.sch_homes.specs.View.{bare_code, tree_of};

mod call_arguments;
mod call_moves;
mod frame_body;
mod frame_places;
mod frame_room;
mod listed_moves;
mod saved_variables;
mod straight_calls;
mod temporaries;

pub use frame_body::frame;
pub use listed_moves::list_moves;
use sch_control::PlacedBody;

/// The law that a body with places, laid out in its frame, has what a layout asks of it. It is a call that does nothing, as
/// the other ones are.
pub fn homes_are_placed()
    ensures { HomesPlaced }
{}

/// The law that its layout does what it does, is a valid frame body, and has each mark where it belongs.
pub fn homes_are_framed()
    ensures { HomesFramed }
{}

/// The law that the type of bodies with places keeps what these laws ask for.
pub fn bodies_are_placed<const N: usize>(b: &PlacedBody<'_, N>)
    ensures { IsPlaced (bare_code b.now) (tree_of b.now) b.now.places }
{
    let _ = &b.places;
}

/// The law that the moves of its calls bring each argument into its place by way of another at most.
pub fn moves_are_few()
    ensures { MovesAreFew }
{}
