//! A body with variables in registers, laid out with a region, with moves of its calls and with what each call restores.

ghost use Rattle.std.specs.Prelude.{◌≡◌, ◌∷◌, [], false, true, IfOk};
ghost use Rattle.sch_control.specs.declared.operation.Atom.TheVariants as atom;
ghost use Rattle.sch_control.specs.declared.operation.Operand.TheVariants as operand;
ghost use Rattle.sch_control.specs.View.{expression_with};
ghost use Rattle.sch_layout.specs.BodyLayout.{labels};
ghost use Rattle.sch_word.specs.declared.constant.Const.TheVariants.{Character};
ghost use Rattle.sch_word.specs.declared.place.Place.TheVariants.{Reg, Slot};
ghost use Rattle.sch_writer.specs.FewOperands.{FewOperands};
ghost use Rattle.sch_writer.specs.View.{moves_of};

use crate::straight::is_straight;
use sch_control::{Application, Atom, Entry, Exp, Operand, Operation};
use sch_frames::Instruction;
use sch_word::{Const, LINK_REGISTER, List, MarkKind, Mem, Place, registers};
use sch_writer::{Allocation, Move, Restores, VariablePlaces, write_body};
use std::alloc::Global;
use std::test::Fail;

// A character goes to the first slot of the next frame, and the operator to R14.
fn first_moves(alloc: Global) -> Result<List<Move>, Mem>
    ensures { IfOk result (λ moves. moves_of moves
        ≡ record { argument = 1; from = operand.Atom (atom.Constant (Character 98)); to = Slot 50; temp = false }
        ∷ record { argument = 0; from = operand.Atom (atom.Variable (Slot 21)); to = Reg 14; temp = false } ∷ []) }
{
    let mut moves = List::new(alloc);
    moves.push(Move {
        argument: 1,
        from: Operand::Atom(Atom::Constant(Const::Character(98))),
        to: Place::Slot(50),
        is_temporary: false,
    })?;
    moves.push(Move {
        argument: 0,
        from: Operand::Atom(Atom::Variable(Place::Slot(21))),
        to: Place::Reg(14),
        is_temporary: false,
    })?;
    Ok(moves)
}

// The operand, in R14, is set aside in slot 1, and goes on to RBX behind the operator, which was there.
fn second_moves(alloc: Global) -> Result<List<Move>, Mem>
    ensures { IfOk result (λ moves. moves_of moves
        ≡ record { argument = 1; from = operand.Atom (atom.Variable (Reg 14)); to = Slot 1; temp = true }
        ∷ record { argument = 0; from = operand.Atom (atom.Variable (Reg 3)); to = Reg 14; temp = false }
        ∷ record { argument = 1; from = operand.Atom (atom.Variable (Slot 1)); to = Reg 3; temp = false } ∷ []) }
{
    let mut moves = List::new(alloc);
    moves.push(Move {
        argument: 1,
        from: Operand::Atom(Atom::Variable(Place::Reg(14))),
        to: Place::Slot(1),
        is_temporary: true,
    })?;
    moves.push(Move {
        argument: 0,
        from: Operand::Atom(Atom::Variable(Place::Reg(3))),
        to: Place::Reg(14),
        is_temporary: false,
    })?;
    moves.push(Move {
        argument: 1,
        from: Operand::Atom(Atom::Variable(Place::Slot(1))),
        to: Place::Reg(3),
        is_temporary: false,
    })?;
    Ok(moves)
}

// The return address, variable 2 and variable 3 live in R15, RBX and R14, which calls use, and are saved in slots 10, 12 and 13.
// The closure lives in slot 21. The body has no other variable: any would live in slot 49, and be saved in slot 48. The slots from
// 50 on are those of the next frame.
#[derive(Drop)]
struct Places;

impl VariablePlaces for Places {
    ghost use Rattle.std.specs.Prelude.{◌∷◌, [], cond, false, nat_eq, true};
    ghost use Rattle.sch_control.specs.declared.operation.Atom.TheVariants as atom;
    ghost use Rattle.sch_control.specs.declared.operation.Operand.TheVariants as operand;
    ghost use Rattle.sch_word.specs.declared.constant.Const.TheVariants.{Character};
    ghost use Rattle.sch_word.specs.declared.place.Place.TheVariants.{Reg, Slot};

    ghost plan = { λ s. record {
      place = λ x. cond (nat_eq x 0) (Reg 15)
          (cond (nat_eq x 1) (Slot 21) (cond (nat_eq x 2) (Reg 3) (cond (nat_eq x 3) (Reg 14) (Slot 49))));
      home = λ x. cond (nat_eq x 0) (Slot 10)
          (cond (nat_eq x 1) (Slot 11) (cond (nat_eq x 2) (Slot 12) (cond (nat_eq x 3) (Slot 13) (Slot 48))));
      limit = 50;
      moves = λ tail a. cond (nat_eq a.site 0)
          (record { argument = 1; from = operand.Atom (atom.Constant (Character 98)); to = Slot 50; temp = false }
          ∷ record { argument = 0; from = operand.Atom (atom.Variable (Slot 21)); to = Reg 14; temp = false } ∷ [])
          (record { argument = 1; from = operand.Atom (atom.Variable (Reg 14)); to = Slot 1; temp = true }
          ∷ record { argument = 0; from = operand.Atom (atom.Variable (Reg 3)); to = Reg 14; temp = false }
          ∷ record { argument = 1; from = operand.Atom (atom.Variable (Slot 1)); to = Reg 3; temp = false } ∷ []);
    } };

    fn place(&self, x: u32) -> Place {
        match x {
            0 => Place::Reg(15),
            1 => Place::Slot(21),
            2 => Place::Reg(3),
            3 => Place::Reg(14),
            _ => Place::Slot(49),
        }
    }

    fn home(&self, x: u32) -> Place {
        match x {
            0 => Place::Slot(10),
            1 => Place::Slot(11),
            2 => Place::Slot(12),
            3 => Place::Slot(13),
            _ => Place::Slot(48),
        }
    }

    fn limit(&self) -> u32 {
        50
    }

    fn moves(&self, alloc: Global, _tail: bool, a: &Application<u32>) -> Result<List<Move>, Mem> {
        if a.site == 0 {
            return first_moves(alloc);
        }
        second_moves(alloc)
    }
}

// A call has the list of what is restored behind it.
#[derive(Drop)]
struct Listed;

impl Restores<List<u32>> for Listed {
    ghost lists = { λ s call. call };

    fn after<'a>(&'a self, call: &'a List<u32>) -> &'a [u32] {
        call.as_slice()
    }
}

fn variable(x: u32) -> Operand<u32> {
    Operand::Atom(Atom::Variable(x))
}

fn value(o: Operand<u32>) -> Exp<List<u32>>
    ensures { FewOperands result }
{
    Exp::Do(Operation::Operand(o))
}

// The call of a variable with another one: its site and the two variables; some are restored after it.
fn call(alloc: Global, parts: (u32, u32, u32), restored: &[u32]) -> Result<Exp<List<u32>>, Mem>
    ensures { IfOk result (λ e. FewOperands e) }
{
    let (site, operator, operand) = parts;
    let restored = List::from_slice(alloc, restored)?;
    let mut operands = List::new(alloc);
    operands.push(variable(operand))?;
    let a = Application {
        site,
        spread: false,
        operator: variable(operator),
        operands,
    };
    Ok(Exp::Call(a, restored))
}

// Such a call before the rest.
fn call_before(
    alloc: Global,
    parts: (u32, u32, u32),
    restored: &[u32],
    rest: Exp<List<u32>>,
) -> Result<Exp<List<u32>>, Mem>
    requires { FewOperands rest }
    ensures { IfOk result (λ e. FewOperands e) }
{
    let rest = Box::new(alloc, rest)?;
    let first = call(alloc, parts, restored)?;
    let first = Box::new(alloc, first)?;
    Ok(Exp::Seq(first, rest))
}

// Variable 3 is a character in the rest.
fn with_letter(alloc: Global, rest: Exp<List<u32>>) -> Result<Exp<List<u32>>, Mem>
    requires { FewOperands rest }
    ensures { IfOk result (λ e. FewOperands e) }
{
    let rest = Box::new(alloc, rest)?;
    let letter = value(Operand::Atom(Atom::Constant(Const::Character(97))));
    let letter = Box::new(alloc, letter)?;
    Ok(Exp::Bind(3, letter, rest))
}

// Calls 2 with 3, restores 3 and 0, and returns 3.
fn calls_the_argument(alloc: Global) -> Result<Exp<List<u32>>, Mem>
    ensures { IfOk result (λ e. FewOperands e) }
{
    let last = Box::new(alloc, value(variable(3)))?;
    call_before(alloc, (1, 2, 3), &[3, 0], Exp::Return(last))
}

// Calls itself with a variable, restores 2 and 0, and goes on with variable 3.
fn calls_itself(alloc: Global) -> Result<Exp<List<u32>>, Mem>
    ensures { IfOk result (λ e. FewOperands e) }
{
    let rest = with_letter(alloc, calls_the_argument(alloc)?)?;
    call_before(alloc, (0, 1, 2), &[2, 0], rest)
}

// All variables are in a region: 1 lives in a slot, 0 and 2 are saved at the head, and 3 where it is bound.
fn in_region(alloc: Global) -> Result<Exp<List<u32>>, Mem>
    ensures { IfOk result (λ e. FewOperands e) }
{
    let e = Box::new(alloc, calls_itself(alloc)?)?;
    let saves = List::from_slice(alloc, &[0, 3, 1, 2])?;
    Ok(Exp::Save(saves, e))
}

// A register by its number, and a slot by its number behind 100.
fn number(p: Place) -> u32 {
    match p {
        Place::Reg(r) => r as u32,
        Place::Slot(j) => j.saturating_add(100),
    }
}

fn held(o: &Operand<Place>) -> u32 {
    match o {
        Operand::Atom(Atom::Variable(p)) => number(*p),
        Operand::Atom(Atom::Constant(Const::Character(c))) => *c as u32,
        _ => 0,
    }
}

/// An instruction as a letter with numbers.
type Seen = (u8, u32, u32);

fn seen(i: &Instruction) -> Seen {
    match i {
        Instruction::Do(Operation::Operand(o)) => (b'd', held(o), 0),
        Instruction::Store(p) => (b's', number(*p), 0),
        Instruction::Copy(to, from) => (b'c', number(*to), number(*from)),
        Instruction::Pass(k) => (b'p', *k, 0),
        Instruction::Call(_, count) => (b'k', *count, 0),
        Instruction::Return => (b'r', 0, 0),
        Instruction::Mark(MarkKind::Save(x)) => (b'S', *x, 0),
        Instruction::Mark(MarkKind::Restore(x)) => (b'R', *x, 0),
        Instruction::Mark(MarkKind::Spill(x)) => (b'P', *x, 0),
        Instruction::Mark(MarkKind::Temp) => (b'T', 0, 0),
        Instruction::Mark(MarkKind::Argument) => (b'A', 0, 0),
        Instruction::Mark(MarkKind::Call(site)) => (b'K', *site, 0),
        Instruction::Mark(MarkKind::Return) => (b'E', 0, 0),
        _ => (b'?', 0, 0),
    }
}

const LINK: u32 = LINK_REGISTER as u32;

const RBX: u32 = registers::RBX as u32;

const R14: u32 = registers::R14 as u32;

const SLOT: u32 = 100;

// The closure is stored in its slot, and RBX has the argument already; then what stands at the head of the region is saved.
const EXPECTED: &[Seen] = &[
    (b'P', 1, 0),
    (b'c', SLOT + 21, R14),
    (b'S', 0, 0),
    (b'c', SLOT + 10, LINK),
    (b'S', 2, 0),
    (b'c', SLOT + 12, RBX),
    // The first call.
    (b'd', 98, 0),
    (b'A', 0, 0),
    (b'p', 0, 0),
    (b'c', R14, SLOT + 21),
    (b'K', 0, 0),
    (b'k', 1, 0),
    (b'R', 2, 0),
    (b'c', RBX, SLOT + 12),
    (b'R', 0, 0),
    (b'c', LINK, SLOT + 10),
    // Variable 3 is bound, and saved there.
    (b'd', 97, 0),
    (b's', R14, 0),
    (b'S', 3, 0),
    (b'c', SLOT + 13, R14),
    // The second call.
    (b'T', 0, 0),
    (b'c', SLOT + 1, R14),
    (b'c', R14, RBX),
    (b'c', RBX, SLOT + 1),
    (b'K', 1, 0),
    (b'k', 1, 0),
    (b'R', 3, 0),
    (b'c', R14, SLOT + 13),
    (b'R', 0, 0),
    (b'c', LINK, SLOT + 10),
    // The end.
    (b'd', R14, 0),
    (b'E', 0, 0),
    (b'r', 0, 0),
];

// Whether these are the instructions, one after the other.
fn are_seen(instructions: &[Instruction], wanted: &[Seen]) -> bool {
    let mut rest = wanted;
    for i in instructions {
        let [first, others @ ..] = rest else {
            return false;
        };
        if seen(i) != *first {
            return false;
        }
        rest = others;
    }
    rest.is_empty()
}

// Whether what is expected is written for a body of one formal that tests nothing.
fn is_written(alloc: Global, body: &Exp<List<u32>>) -> Result<bool, Mem>
    requires few { FewOperands body.now }
    requires labels { labels (expression_with (λ call. call) body.now) ≡ 0 }
{
    let allocation = Allocation {
        places: Places,
        restores: Listed,
    };
    let entry = Entry {
        formals: 1,
        rest: false,
        fields: 0,
    };
    let out = write_body(alloc, &allocation, Some(entry), body)?;
    Ok(are_seen(out.instructions.as_slice(), EXPECTED))
}

// Whether a body tests nothing, and what is expected is written for it.
fn is_straight_and_written(alloc: Global, body: &Exp<List<u32>>) -> Result<bool, Mem>
    requires { FewOperands body.now }
{
    if !is_straight(body) {
        return Ok(false);
    }
    is_written(alloc, body)
}

// The same of the body with the region.
fn is_region_written(alloc: Global) -> Result<bool, Mem> {
    let body = in_region(alloc)?;
    let written = is_straight_and_written(alloc, &body);
    drop(body);
    written
}

#[test]
fn saves_and_restores(rt: HostRuntime) -> Result<(), Fail> {
    assert!(rt; is_region_written(rt.alloc())?);
    Ok(())
}
