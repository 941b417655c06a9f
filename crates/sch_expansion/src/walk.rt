//! From data to drafts: a walk over sketches with a stack of its own.

ghost use Rattle.std.specs.Prelude.{◌≡◌, ◌∷◌, ◌<◌, ◌≤◌, ◌+◌, ◌*◌, ℕ, [], reverse, IfOk, OnOk, Option};
ghost use Rattle.sch_read.specs.Views.{tree_of};
ghost use Rattle.sch_names.specs.NamesView.{globals_of};
ghost use Rattle.sch_sketch.specs.declared.fault.Fault as faults;
ghost use Rattle.sch_sketch.specs.declared.sketch.Position.TheVariants.{Value};
ghost use Rattle.sch_sketch.specs.Measure.{sketch_measure, sketches_measure};
ghost use Rattle.sch_sketch.specs.Sketch.{text, assemble as assembled};
ghost use Rattle.sch_sketch.specs.SketchView.{kind_of, sketch_of, sketches_of};
ghost use Rattle.sch_sketch.specs.DraftView.{draft_of, drafts_of};
ghost use Rattle.sch_expansion.specs.Reads.{Reads};
ghost use Rattle.sch_expansion.specs.WalkStack.{Task, Holds, Goes, PartsWanted, Ready, open_left, stack_left, next_left};

use crate::nodes::{assemble, draft_of_leaf, enter, nothing, position_in, width};
use crate::reports::{deeper, report_deep, report_level, report_operands, report_wrong};
use crate::table::{Rest, outline, outline_datum};
use sch_names::{Globals, Scope};
use sch_sketch::{Draft, Fault, Kind, Position, Sketch};
use sch_word::{List, Mem};
use std::alloc::Global;

/// A node whose parts are being read.
#[derive(Drop)]
struct Open<'a> {
    kind: Kind<'a>,
    /// The level of its parts.
    level: u32,
    position: Position,
    /// How many variables are bound around it.
    depth: usize,
    /// The parts that are left, the next one last.
    left: List<Sketch<'a>>,
    drafts: List<Draft<'a>>,
}

/// Where a sketch stands: at which level, and whether its value is asked for.
#[derive(Clone, Copy, Drop)]
struct Standing {
    level: u32,
    position: Position,
}

/// What comes next: a sketch to be read, or the draft of one that was.
#[derive(Drop)]
enum Next<'a> {
    Down(Sketch<'a>, Standing),
    Up(Draft<'a>),
}

/// A walk over one sketch after another: the nodes whose parts are being read, the innermost last, and the
/// variables that are bound there. Between two sketches there are none, and their memory is used again; the table
/// of the scope keeps the names.
#[derive(Drop)]
pub struct Walk<'a> {
    alloc: Global,
    stack: List<Open<'a>>,
    scope: Scope,
}

/// The draft of a node none of whose parts is left.
fn finished<'a>(alloc: Global, node: Open<'a>) -> Result<Draft<'a>, Mem>
    ensures { IfOk result (λ e. draft_of e ≡ assembled (kind_of node.entry.kind) (drafts_of node.entry.drafts)) }
{
    let Open {
        kind,
        level: _,
        position: _,
        depth: _,
        left: _,
        drafts,
    } = node;
    let e = assemble(alloc, kind, drafts)?;
    Ok(e)
}

impl<'a> Walk<'a> {
    /// A walk that has read nothing yet.
    pub fn new(alloc: Global) -> Walk<'a> {
        Walk {
            alloc,
            stack: List::new(alloc),
            scope: Scope::new(alloc),
        }
    }

    /// What stands for a datum, or another sketch as it is.
    fn outlined(&self, globals: &Globals, sketch: Sketch<'a>) -> Result<Sketch<'a>, Mem>
        ensures reads { IfOk result (λ k. (n : ℕ) (t : _) (a b : Option faults.Fault) (e : _) →
            Reads (globals_of globals.now) n self.now.scope t (sketch_of k) a b e → Reads (globals_of globals.now) n self.now.scope t (sketch_of sketch.entry) a b e) }
        ensures smaller { IfOk result (λ k. sketch_measure (sketch_of k) ≤ sketch_measure (sketch_of sketch.entry)) }
    {
        match sketch {
            Sketch::Text(d) => {
                let k = outline_datum(self.alloc, globals, &self.scope, d)?;
                Ok(k)
            }
            k => Ok(k),
        }
    }

    /// Goes on with a node: past the parts that are leaves, with the next that is none, or with its draft.
    fn resume(
        &mut self,
        globals: &Globals,
        node: Open<'a>,
        fault: &mut Option<Fault>,
    ) -> Result<Next<'a>, Mem>
        ensures ready { (w : Task) → w.globals ≡ globals_of globals.now → Goes w node.entry (reverse self.old.stack) self.old.scope fault.old →
            IfOk result (λ next. Ready w next (reverse self.new.stack) self.new.scope fault.new) }
        ensures smaller { IfOk result (λ next. next_left next (reverse self.new.stack)
            < 1 + open_left node.entry + stack_left (reverse self.old.stack)) }
    {
        let mut node = node;
        'parts: loop {
            let Some(part) = node.left.pop() else {
                let e = finished(self.alloc, node)?;
                return Ok(Next::Up(e));
            };
            let first = node.drafts.len() == 0;
            let last = node.left.len() == 0;
            enter(self.alloc, &node.kind, first, last, &mut self.scope)?;
            let at = Standing {
                level: node.level,
                position: position_in(&node.kind, first, last, node.position),
            };
            match self.outlined(globals, part)? {
                Sketch::Leaf(place, leaf) => {
                    report_level(at.level, place, fault);
                    self.scope.leave(node.depth);
                    node.drafts.push(draft_of_leaf(&leaf))?;
                }
                k => {
                    self.stack.push(node)?;
                    return Ok(Next::Down(k, at));
                }
            }
        }
    }

    /// A node none of whose parts is read, which lie at this level.
    fn opened(
        &self,
        kind: Kind<'a>,
        parts_at: Standing,
        parts: List<Sketch<'a>>,
    ) -> Result<Open<'a>, Mem>
        ensures ready { IfOk result (λ node. (w : Task) (os : _) (b : Option faults.Fault) →
            PartsWanted w (kind_of kind.entry) parts_at.level parts_at.position (sketches_of parts.entry) os self.now.scope b → Goes w node os self.now.scope b) }
        ensures left { IfOk result (λ node. open_left node ≡ 1 + 2 * sketches_measure (sketches_of parts.entry)) }
    {
        let room = Vec::with_capacity(self.alloc, parts.len())?;
        Ok(Open {
            kind,
            level: parts_at.level,
            position: parts_at.position,
            depth: self.scope.depth(),
            left: parts.reversed(),
            drafts: List::from_vec(room),
        })
    }

    /// One step into a sketch. What stands for a datum is gone into at once.
    fn down(
        &mut self,
        globals: &Globals,
        sketch: Sketch<'a>,
        at: Standing,
        fault: &mut Option<Fault>,
    ) -> Result<Next<'a>, Mem>
        ensures ready { (w : Task) → w.globals ≡ globals_of globals.now →
            ((m : Option faults.Fault) (e : _) → Reads w.globals at.level self.old.scope at.position (sketch_of sketch.entry) fault.old m e →
            Holds w (reverse self.old.stack) self.old.scope m e) →
            IfOk result (λ next. Ready w next (reverse self.new.stack) self.new.scope fault.new) }
        ensures smaller { IfOk result (λ next. next_left next (reverse self.new.stack)
            < 2 * sketch_measure (sketch_of sketch.entry) + stack_left (reverse self.old.stack)) }
    {
        let k = self.outlined(globals, sketch)?;
        self.step(globals, k, at, fault)
    }

    /// One step into a sketch.
    fn step(
        &mut self,
        globals: &Globals,
        sketch: Sketch<'a>,
        at: Standing,
        fault: &mut Option<Fault>,
    ) -> Result<Next<'a>, Mem>
        ensures ready { (w : Task) → w.globals ≡ globals_of globals.now →
            ((m : Option faults.Fault) (e : _) → Reads w.globals at.level self.old.scope at.position (sketch_of sketch.entry) fault.old m e →
            Holds w (reverse self.old.stack) self.old.scope m e) →
            IfOk result (λ next. Ready w next (reverse self.new.stack) self.new.scope fault.new) }
        ensures smaller { IfOk result (λ next. next_left next (reverse self.new.stack)
            < 2 * sketch_measure (sketch_of sketch.entry) + stack_left (reverse self.old.stack)) }
    {
        match sketch {
            Sketch::Text(d) => {
                let k = outline_datum(self.alloc, globals, &self.scope, d)?;
                Ok(Next::Down(k, at))
            }
            Sketch::Rest(row, place, first, second) => {
                let rest = Rest {
                    row,
                    at: place,
                    first,
                    second,
                };
                let k = outline(self.alloc, globals, &mut self.scope, at.position, rest)?;
                Ok(Next::Down(k, at))
            }
            Sketch::Wrong(wrong) => {
                report_wrong(self.alloc, wrong, fault)?;
                Ok(Next::Up(nothing()))
            }
            Sketch::Leaf(place, leaf) => {
                report_level(at.level, place, fault);
                let e = draft_of_leaf(&leaf);
                Ok(Next::Up(e))
            }
            Sketch::Limited(place, count, inner) => {
                report_operands(place, count, fault);
                let inside = Box::into_inner(inner);
                Ok(Next::Down(inside, at))
            }
            Sketch::Node(kind, place, parts) => {
                report_operands(place, width(&kind, parts.len()), fault);
                let Some(next) = deeper(at.level) else {
                    report_deep(place, fault);
                    return Ok(Next::Up(nothing()));
                };
                let parts_at = Standing {
                    level: next,
                    position: at.position,
                };
                let node = self.opened(kind, parts_at, parts)?;
                self.resume(globals, node, fault)
            }
        }
    }

    /// One step out of a part of a node.
    fn up(
        &mut self,
        globals: &Globals,
        e: Draft<'a>,
        node: Open<'a>,
        fault: &mut Option<Fault>,
    ) -> Result<Next<'a>, Mem>
        ensures ready { (w : Task) → w.globals ≡ globals_of globals.now → Holds w (node.entry ∷ reverse self.old.stack) self.old.scope fault.old (draft_of e.entry) →
            IfOk result (λ next. Ready w next (reverse self.new.stack) self.new.scope fault.new) }
        ensures smaller { IfOk result (λ next. next_left next (reverse self.new.stack)
            < 1 + open_left node.entry + stack_left (reverse self.old.stack)) }
    {
        let mut node = node;
        self.scope.leave(node.depth);
        node.drafts.push(e)?;
        self.resume(globals, node, fault)
    }

    /// The draft of a sketch outside all variables and for its value, and the least fault so far. What is left
    /// of a sketch before it, where memory ran out, is forgotten.
    pub fn read(
        &mut self,
        globals: &Globals,
        sketch: Sketch<'a>,
        fault: &mut Option<Fault>,
    ) -> Result<Draft<'a>, Mem>
        ensures { IfOk result (λ e. Reads (globals_of globals.now) 1 [] Value (sketch_of sketch.entry) fault.old fault.new (draft_of e)) }
    {
        self.forget();
        let top = Standing {
            level: 1,
            position: Position::Value,
        };
        let mut next = Next::Down(sketch, top);
        loop {
            next = match next {
                Next::Down(k, at) => self.down(globals, k, at, fault)?,
                Next::Up(e) => match self.stack.pop() {
                    None => return Ok(e),
                    Some(node) => self.up(globals, e, node, fault)?,
                },
            };
        }
    }

    /// Forgets what is being read.
    fn forget(&mut self)
        ensures stack { self.new.stack ≡ [] }
        ensures scope { self.new.scope ≡ [] }
    {
        while let Some(_node) = self.stack.pop() {}
        self.scope.leave(0);
    }
}

/// The draft of one sketch outside all variables and for its value, and the least fault so far.
pub fn read<'a>(
    alloc: Global,
    globals: &Globals,
    sketch: Sketch<'a>,
    fault: &mut Option<Fault>,
) -> Result<Draft<'a>, Mem>
    ensures { IfOk result (λ e. Reads (globals_of globals.now) 1 [] Value (sketch_of sketch.entry) fault.old fault.new (draft_of e)) }
{
    let mut walk = Walk::new(alloc);
    walk.read(globals, sketch, fault)
}
