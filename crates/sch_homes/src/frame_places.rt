//! Where the variables of a body live in its frame, and where those in registers are saved, by tables.

ghost use Rattle.std.specs.Prelude.{◌≡◌, ◌≤◌, [], length, IfOk};
ghost use Rattle.sch_word.specs.declared.place.Place.TheVariants.{Slot};
ghost use Rattle.sch_control.specs.Valid.{max_body_variables};
ghost use Rattle.sch_frames.specs.Valid.{max_words};
ghost use Rattle.sch_homes.specs.CallMoves.{next_frame};
ghost use Rattle.sch_homes.specs.HomeTable.{place_in, table_plan};

use crate::call_moves::call_moves;
use sch_control::Application;
use sch_word::{List, Mem, Place};
use sch_writer::{Move, VariablePlaces};
use std::alloc::Global;

/// From this slot on a place is one of the frame that a call opens.
pub(crate) const NEXT_FRAME: u32 = 4096;

/// The most words of a frame.
const MAX_WORDS: u32 = 2048;

/// The places of variables. As a plan these are the places alone: it has no homes and no moves.
#[derive(Clone, Copy)]
pub(crate) struct FramePlaces<'a> {
    pub places: &'a [Place],
}

impl FramePlaces<'_> {
    /// Where a variable lives; what is no variable of the body lives in no slot of its frame.
    pub fn place_of(&self, x: u32) -> Place
        ensures { result ≡ place_in self.now.places.now x }
    {
        match self.places.get(x as usize) {
            None => Place::Slot(NEXT_FRAME),
            Some(p) => *p,
        }
    }
}

impl VariablePlaces for FramePlaces<'_> {
    ghost plan = { λ s. record { place = place_in s.places.now; home = λ x. Slot 0; limit = next_frame; moves = λ tail a. [] } };

    fn place(&self, x: u32) -> Place {
        self.place_of(x)
    }

    fn home(&self, _x: u32) -> Place {
        Place::Slot(0)
    }

    fn limit(&self) -> u32 {
        NEXT_FRAME
    }

    fn moves(&self, alloc: Global, _tail: bool, _a: &Application<u32>) -> Result<List<Move>, Mem> {
        Ok(List::new(alloc))
    }
}

/// These places, with the home of each variable that lives in a register and is saved, and where homes end. What has no home, which
/// is not asked for, would have its own behind the largest frame.
#[derive(Drop)]
pub(crate) struct Homes<'a> {
    pub lives: FramePlaces<'a>,
    pub homes: List<Option<u32>>,
    pub end: u32,
    ghost few: { length lives.places.now ≤ max_body_variables },
    ghost low: { end ≤ max_words },
}

impl VariablePlaces for Homes<'_> {
    ghost plan = { λ s. table_plan s.end s.lives.places.now s.homes };

    fn place(&self, x: u32) -> Place {
        self.lives.place_of(x)
    }

    fn home(&self, x: u32) -> Place {
        match self.homes.get(x as usize) {
            Some(Some(j)) => Place::Slot(*j),
            _ => Place::Slot(MAX_WORDS + x),
        }
    }

    fn limit(&self) -> u32 {
        NEXT_FRAME
    }

    fn moves(&self, alloc: Global, tail: bool, a: &Application<u32>) -> Result<List<Move>, Mem> {
        call_moves(alloc, &self.lives, self.end, tail, a)
    }
}
