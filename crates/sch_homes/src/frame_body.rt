//! The frame body of a body whose variables have places.

ghost use Rattle.std.specs.Prelude.{◌≡◌, ◌≤◌, ◌<◌, ◌+◌, ◌*◌, ◌^◌, IfOk, IsTrue};
ghost use Rattle.sch_word.specs.trees.Shape.{max_operands};
ghost use Rattle.sch_control.specs.Covered as control_covered;
ghost use Rattle.sch_frames.specs.Covered.{code_begins, is_covered_code};
ghost use Rattle.sch_control.specs.Work as control_work;
ghost use Rattle.sch_frames.specs.Does.{FrameOf};
ghost use Rattle.sch_frames.specs.Sizes.{code_work, copies_of};
ghost use Rattle.sch_frames.specs.SourceView.{code_of};
ghost use Rattle.sch_frames.specs.Standing.{code_marks_stand};
ghost use Rattle.sch_layout.specs.BodyLayout.{labels};
ghost use Rattle.sch_homes.specs.FewKept.{BodyKeepsFew};
ghost use Rattle.sch_homes.specs.Homes.{homes_code};
ghost use Rattle.sch_homes.specs.Laws.{AreDense};
ghost use Rattle.sch_paths.specs.EachSoonRestored.{EachSoonRestored};
ghost use Rattle.sch_homes.specs.View.{bare_code, entry_of, tree_of};

use crate::frame_places::{FramePlaces, Homes};
use crate::frame_room::room_for;
use sch_control::{PlacedBody, Restoring};
use sch_frames::FrameBody;
use sch_word::Mem;
use sch_writer::{Allocation, Restores, write_body};
use std::alloc::Global;

/// Each call restores what it has.
#[derive(Clone, Copy)]
struct OwnRestores;

impl<const N: usize> Restores<Restoring<N>> for OwnRestores {
    ghost lists = { λ own call. call.restores };

    fn after<'a>(&'a self, call: &'a Restoring<N>) -> &'a [u32] {
        call.restores.as_slice()
    }
}

/// The frame body of a body whose variables have places.
///
/// A variable in a register has a slot of its own where it is saved, behind the slots of arguments and those of variables. The
/// moves of a call are those of a greedy shuffle of its operator and its operands, which are set aside in registers that no
/// argument uses or goes to, and then in slots behind those.
///
/// Time and memory are linear in the body and in what is written, as `write_body` says, but for calls: the time of a call grows
/// with the square of the number of its operands, of which there are at most 200.
pub fn frame<const N: usize>(alloc: Global, b: &PlacedBody<'_, N>) -> Result<FrameBody, Mem>
    requires soon { EachSoonRestored (tree_of b.now) }
    requires labels { labels (tree_of b.now) < 2 ^ 32 }
    // What laying out is defined to make.
    ensures made { IfOk result (λ f. code_of f ≡ homes_code (entry_of b.now) (tree_of b.now) b.now.places) }
    ensures same { IfOk result (λ f. FrameOf (bare_code b.now) (code_of f)) }
    ensures begins { IfOk result (λ f. IsTrue (code_begins (code_of f))) }
    ensures stand { IfOk result (λ f. IsTrue (code_marks_stand (code_of f))) }
    ensures covered { IfOk result (λ f.
        IsTrue (control_covered.is_covered_code (bare_code b.now)) → IsTrue (is_covered_code (code_of f))) }
    // Where slots are not left out, a frame has beside its variables at most as many words as a call may have operands.
    ensures words { IfOk result (λ f. AreDense b.now.places → f.words ≤ max_operands + b.now.restored.now.body.now.variables) }
    // Where regions and calls keep few variables, its text, 64 bytes for what there is to do and 8 for each copy, is within
    // 72 bytes for each unit of work of the body.
    ensures fits { IfOk result (λ f. BodyKeepsFew (entry_of b.now) (tree_of b.now) b.now.places
        → 64 * code_work (code_of f) + 8 * copies_of f.instructions ≤ 72 * control_work.code_work (bare_code b.now)) }
{
    let room = room_for(alloc, b)?;
    let words = room.words;
    let end = room.homes.end;
    let lives = FramePlaces {
        places: b.places.as_slice(),
    };
    let places = Homes {
        lives,
        homes: room.homes.homes,
        end,
    };
    let allocation = Allocation {
        places,
        restores: OwnRestores,
    };
    let out = write_body(alloc, &allocation, b.restored.body.entry, &b.restored.exp)?;
    Ok(FrameBody {
        entry: b.restored.body.entry,
        words,
        labels: out.labels,
        instructions: out.instructions,
    })
}
