//! Activations, counted as their marks are passed.

ghost use Rattle.std.specs.Prelude.{◌≡◌, ◌≢◌, ◌+◌, ◌++◌, ◌∷◌, ◌<◌, ℕ, [], true, false, List, length, None, All, IfOk, OnOk};
ghost use Rattle.sch_word.specs.declared.mark.MarkKind.{MarkKind};
ghost use Rattle.sch_word.specs.declared.mark.MarkKind.TheVariants.{Enter, Call, Save};
ghost use Rattle.sch_word.specs.runs.Activations.{Activations, is_enter, pass, resumed, settled, with_mark, is_call};
ghost use Rattle.sch_count.specs.ActivationCounts.{is_save, replaced_by};
ghost use Rattle.sch_count.specs.Tallied.{HasRoom, HasRoomFor, IsKnown, Tallies, TalliesMarks, TalliesNext};

use crate::row::Row;
use sch_word::{List, MarkKind, Mem};
use std::alloc::Global;

/// An activation that has not ended: its body, how many saves it has made, and whether it has called.
#[derive(Clone, Copy)]
pub(crate) struct Open {
    pub(crate) body: u32,
    pub(crate) saves: u128,
    pub(crate) called: bool,
}

/// What the marks that were passed say of activations: a row for each body, the activation on top, if there is one, and
/// those that wait for a call to return, the last one last. A tail call is just over where its mark was the last one.
#[derive(Drop)]
pub(crate) struct Tally {
    pub(crate) rows: Vec<Row>,
    pub(crate) current: Option<Open>,
    pub(crate) suspended: List<Open>,
    pub(crate) handed_over: bool,
}

impl Tally {
    /// The tally of no marks.
    pub(crate) fn new(alloc: Global, bodies: u32) -> Result<Tally, Mem>
        ensures tallies { IfOk result (λ t. TalliesMarks t []) }
        ensures bodies { IfOk result (λ t. length t.rows.items ≡ bodies) }
    {
        let none = Row {
            activations: 0,
            leaves: 0,
            saves: 0,
            leaf_saves: 0,
        };
        let rows = vec![in alloc; none; bodies as usize]?;
        Ok(Tally {
            rows,
            current: None,
            suspended: List::new(alloc),
            handed_over: false,
        })
    }

    /// The activation that was suspended last is open again.
    fn resume(&mut self)
        ensures tallies { (a : Activations) (over : List (List MarkKind)) → a.current ≡ None → Tallies self.old a over → Tallies self.new (resumed a.suspended a.ended) over }
        ensures rows { length self.new.rows.items ≡ length self.old.rows.items }
    {
        self.current = self.suspended.pop();
        self.handed_over = false;
    }

    /// Behind a tail call a body is entered, or else the activation that was suspended last goes on.
    fn settle(&mut self, mark: MarkKind)
        ensures tallies { (a : Activations) (over : List (List MarkKind)) → Tallies self.old a over → Tallies self.new (settled mark a) over }
        ensures room { HasRoom self.old → HasRoom self.new }
        ensures rows { length self.new.rows.items ≡ length self.old.rows.items }
    {
        if !self.handed_over {
            return;
        }
        match mark {
            MarkKind::Enter(_) => self.handed_over = false,
            _ => self.resume(),
        }
    }

    /// An activation begins, and ends the one that is open.
    fn enter(&mut self, body: u32)
        requires known { body < length self.old.rows.items }
        requires room { HasRoom self.old }
        ensures tallies { TalliesNext (Enter body) self.old self.new }
        ensures rows { length self.new.rows.items ≡ length self.old.rows.items }
    {
        let row = self.rows[body as usize];
        self.rows[body as usize] = Row {
            activations: row.activations + 1,
            ..row
        };
        self.current = Some(Open {
            body,
            saves: 0,
            called: false,
        });
    }

    /// The activation that is open waits for a call to return.
    fn suspend(&mut self) -> Result<(), Mem>
        ensures tallies { OnOk result ((a : Activations) (over : List (List MarkKind)) (site : ℕ) → Tallies self.old a over → Tallies self.new (pass (Call site) a) over) }
        ensures rows { length self.new.rows.items ≡ length self.old.rows.items }
    {
        if let Some(open) = self.current {
            self.suspended.push(Open {
                called: true,
                ..open
            })?;
            self.current = None;
        }
        Ok(())
    }

    /// The activation that is open has ended by a return or a tail call.
    fn close(&mut self)
        requires room { HasRoom self.old }
        ensures tallies { (a : Activations) (over : List (List MarkKind)) (m : MarkKind) → is_enter m ≡ false → is_call m ≡ false → is_save m ≡ false
            → Tallies self.old a over → Tallies self.new (record a { current = None; ended = a.ended ++ with_mark m a.current }) over }
        ensures rows { length self.new.rows.items ≡ length self.old.rows.items }
    {
        let Some(open) = self.current else {
            return;
        };
        self.current = None;
        if !open.called {
            let row = self.rows[open.body as usize];
            self.rows[open.body as usize] = Row {
                leaves: row.leaves + 1,
                leaf_saves: row.leaf_saves + open.saves,
                ..row
            };
        }
    }

    /// The activation that is open has saved.
    fn save(&mut self)
        requires room { HasRoom self.old }
        ensures tallies { (a : Activations) (over : List (List MarkKind)) (x : ℕ) → Tallies self.old a over → Tallies self.new (pass (Save x) a) over }
        ensures rows { length self.new.rows.items ≡ length self.old.rows.items }
    {
        let Some(open) = self.current else {
            return;
        };
        let row = self.rows[open.body as usize];
        self.rows[open.body as usize] = Row {
            saves: row.saves + 1,
            ..row
        };
        self.current = Some(Open {
            saves: open.saves + 1,
            ..open
        });
    }

    /// A mark is passed.
    pub(crate) fn pass(&mut self, mark: MarkKind) -> Result<(), Mem>
        requires known { IsKnown (length self.old.rows.items) mark }
        requires room { HasRoom self.old }
        ensures tallies { OnOk result ((a : Activations) (over : List (List MarkKind)) → Tallies self.old a over
            → Tallies self.new (pass mark (settled mark a)) (over ++ replaced_by mark (settled mark a))) }
        ensures rows { length self.new.rows.items ≡ length self.old.rows.items }
    {
        self.settle(mark);
        match mark {
            MarkKind::Enter(body) => self.enter(body),
            MarkKind::Call(_) => self.suspend()?,
            MarkKind::Return => {
                self.close();
                self.resume();
            }
            MarkKind::Tail(_) => {
                self.close();
                self.handed_over = true;
            }
            MarkKind::Save(_) => self.save(),
            _ => {}
        }
        Ok(())
    }

    /// Marks are passed, one after the other.
    pub(crate) fn pass_all(&mut self, marks: &[MarkKind]) -> Result<(), Mem>
        requires known { All (IsKnown (length self.old.rows.items)) marks.now }
        requires room { HasRoomFor (length marks.now) self.old }
        ensures tallies { OnOk result ((before : List MarkKind) → TalliesMarks self.old before → TalliesMarks self.new (before ++ marks.now)) }
        ensures rows { length self.new.rows.items ≡ length self.old.rows.items }
    {
        for mark in marks {
            self.pass(*mark)?;
        }
        Ok(())
    }
}
