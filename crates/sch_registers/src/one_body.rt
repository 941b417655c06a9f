//! The frame body of a body, by registers.

ghost use Rattle.std.specs.Prelude.{◌≡◌, ◌≤◌, ◌<◌, ◌*◌, ◌^◌, ◌++◌, IfOk, OnOk};
ghost use Rattle.sch_control.specs.Sizes.{tests_in};
ghost use Rattle.sch_control.specs.SourceView as control;
ghost use Rattle.sch_frames.specs.SourceView.{code_of};
ghost use Rattle.sch_layout.specs.BodyLayout.{labels};
ghost use Rattle.sch_homes.specs.Homes.{homes_code};
ghost use Rattle.sch_homes.specs.ListedMoves.{homes_calls};
ghost use Rattle.sch_homes.specs.View.{entry_of, tree_of};
ghost use Rattle.sch_paths.specs.EachSoonRestored.{EachSoonRestored};
ghost use Rattle.sch_registers.specs.FramedBodies.{IsFramedBody};
ghost use Rattle.sch_registers.specs.Registers.{registers_calls};

use sch_control::{Body, PlacedBody};
use sch_frames::FrameBody;
use sch_homes::{frame, list_moves};
use sch_live::live;
use sch_orders::ListedCall;
use sch_regs::assign_places;
use sch_restores::place_restores;
use sch_saves::place_saves;
use sch_word::{List, Mem};
use std::alloc::Global;

/// The frame body of a body with places. What is listed of its calls is added to `calls`.
fn frame_listed<const N: usize>(
    alloc: Global,
    b: &PlacedBody<'_, N>,
    calls: &mut List<ListedCall>,
) -> Result<FrameBody, Mem>
    requires soon { EachSoonRestored (tree_of b.now) }
    requires labels { labels (tree_of b.now) < 2 ^ 32 }
    ensures made { IfOk result (λ f. code_of f ≡ homes_code (entry_of b.now) (tree_of b.now) b.now.places) }
    ensures calls { OnOk result (calls.new ≡ calls.old ++ homes_calls (entry_of b.now) (tree_of b.now) b.now.places) }
{
    let f = frame(alloc, b)?;
    list_moves(alloc, b, calls)?;
    Ok(f)
}

/// The frame body of a body, with sets of `N` words. A tree is let go as soon as the next one stands, the last one
/// as soon as its frame body does, since its places refer to it.
fn framed<const N: usize>(
    alloc: Global,
    b: &Body,
    calls: &mut List<ListedCall>,
) -> Result<FrameBody, Mem>
    requires fits { b.now.variables ≤ 64 * N }
    requires words { N < 2 ^ 32 }
    requires tests { 2 * tests_in (control.code_of b.now).expression < 2 ^ 32 }
    ensures body { IfOk result (λ f. IsFramedBody (control.code_of b.now) (code_of f)) }
    ensures calls { OnOk result (calls.new ≡ calls.old ++ registers_calls (control.code_of b.now)) }
{
    let listed = live::<N>(alloc, b)?;
    let saved = place_saves(alloc, &listed)?;
    drop(listed);
    let restored = place_restores(alloc, &saved)?;
    drop(saved);
    let placed = assign_places(alloc, &restored)?;
    let f = frame_listed(alloc, &placed, calls)?;
    Ok(f)
}

/// The frame body of a body, whose variables live in registers while there are any.
///
/// What is live after calls is saved lazily, and each call restores what of that is wanted before the next call. The sets of
/// variables have as many words as the body's variables need: 1, 4 or 16. What is listed of its calls is added to `calls`.
/// Each test of the body takes two labels.
pub fn frame_body(alloc: Global, b: &Body, calls: &mut List<ListedCall>) -> Result<FrameBody, Mem>
    requires tests { 2 * tests_in (control.code_of b.now).expression < 2 ^ 32 }
    ensures body { IfOk result (λ f. IsFramedBody (control.code_of b.now) (code_of f)) }
    ensures calls { OnOk result (calls.new ≡ calls.old ++ registers_calls (control.code_of b.now)) }
{
    if b.variables <= 64 {
        return framed::<1>(alloc, b, calls);
    }
    if b.variables <= 256 {
        return framed::<4>(alloc, b, calls);
    }
    framed::<16>(alloc, b, calls)
}
