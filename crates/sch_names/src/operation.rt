//! Combinations that are operations of the language and no calls.

ghost use Rattle.std.specs.Prelude.{◌≡◌, ℕ, Bool, List, length, map};
ghost use Rattle.std.specs.Str.{bytes_eq};
ghost use Rattle.sch_word.specs.values.Primitives.{name_of};
ghost use Rattle.sch_names.specs.Operations.{unit_of, exactly, arithmetic, comparison, filling, admitted, primitive_among, other_operation, operation_of, rows as all_rows, named_of};

use sch_word::Primitive;

/// What a combination of a primitive's name and its operands is.
#[derive(Clone, Copy, Drop)]
pub enum Operation {
    /// The primitive with as many operands as it takes.
    Exact(Primitive),
    /// `(+)` or `(*)`.
    Unit(Primitive),
    /// `(+ a)`, `(* a)` or `(- a)`.
    UnitAnd(Primitive),
    /// `+`, `-` or `*` of three or more.
    Nested(Primitive),
    /// A comparison of three or more.
    Chained(Primitive),
    /// `(make-string n)` or `(make-vector n)`, without what it is filled with.
    Filled(Primitive),
    /// `(not a)`.
    Not,
}

/// How many operands the name of a primitive admits.
#[derive(Clone, Copy)]
enum Arity {
    /// As many as the primitive takes.
    Fixed,
    AnyNumber,
    OneOrMore,
    TwoOrMore,
    /// As many as the primitive takes, or one less: what a new object is filled with may be left out.
    FillOptional,
}

/// The primitives by the lengths of their names, with the operands that their names admit, and whether only the text of
/// a library names them: one letter, two to five, six to eight, more.
const OF_ONE: [(Primitive, Arity, bool); 6] = [
    (Primitive::Add, Arity::AnyNumber, false),
    (Primitive::Subtract, Arity::OneOrMore, false),
    (Primitive::Multiply, Arity::AnyNumber, false),
    (Primitive::Equal, Arity::TwoOrMore, false),
    (Primitive::Less, Arity::TwoOrMore, false),
    (Primitive::Greater, Arity::TwoOrMore, false),
];

const OF_FEW: [(Primitive, Arity, bool); 11] = [
    (Primitive::Eqv, Arity::Fixed, false),
    (Primitive::Eq, Arity::Fixed, false),
    (Primitive::LessEqual, Arity::TwoOrMore, false),
    (Primitive::GreaterEqual, Arity::TwoOrMore, false),
    (Primitive::IsPair, Arity::Fixed, false),
    (Primitive::Cons, Arity::Fixed, false),
    (Primitive::Car, Arity::Fixed, false),
    (Primitive::Cdr, Arity::Fixed, false),
    (Primitive::IsNull, Arity::Fixed, false),
    (Primitive::IsChar, Arity::Fixed, false),
    (Primitive::Put, Arity::Fixed, true),
];

const OF_SOME: [(Primitive, Arity, bool); 9] = [
    (Primitive::Quotient, Arity::Fixed, false),
    (Primitive::Modulo, Arity::Fixed, false),
    (Primitive::IsInteger, Arity::Fixed, false),
    (Primitive::IsBoolean, Arity::Fixed, false),
    (Primitive::SetCar, Arity::Fixed, false),
    (Primitive::SetCdr, Arity::Fixed, false),
    (Primitive::IsSymbol, Arity::Fixed, false),
    (Primitive::IsString, Arity::Fixed, false),
    (Primitive::IsVector, Arity::Fixed, false),
];

const OF_MORE: [(Primitive, Arity, bool); 14] = [
    (Primitive::Remainder, Arity::Fixed, false),
    (Primitive::CharToInteger, Arity::Fixed, false),
    (Primitive::IntegerToChar, Arity::Fixed, false),
    (Primitive::MakeString, Arity::FillOptional, false),
    (Primitive::StringLength, Arity::Fixed, false),
    (Primitive::StringRef, Arity::Fixed, false),
    (Primitive::StringSet, Arity::Fixed, false),
    (Primitive::MakeVector, Arity::FillOptional, false),
    (Primitive::VectorLength, Arity::Fixed, false),
    (Primitive::VectorRef, Arity::Fixed, false),
    (Primitive::VectorSet, Arity::Fixed, false),
    (Primitive::IsProcedure, Arity::Fixed, false),
    (Primitive::SymbolLength, Arity::Fixed, true),
    (Primitive::SymbolRef, Arity::Fixed, true),
];

/// Primitives among which are all whose names have this length.
fn primitives_of_length(n: usize) -> &'static [(Primitive, Arity, bool)]
    ensures { (internal : Bool) (x : List ℕ) → length x ≡ n
        → primitive_among internal x (map named_of result.now) ≡ primitive_among internal x all_rows }
{
    if n == 1 {
        &OF_ONE
    } else if n < 6 {
        &OF_FEW
    } else if n < 9 {
        &OF_SOME
    } else {
        &OF_MORE
    }
}

/// The primitive of this name, among some, with the operands that it admits.
fn primitive_among(
    internal: bool,
    x: &[u8],
    rows: &[(Primitive, Arity, bool)],
) -> Option<(Primitive, Arity)>
    ensures { result ≡ primitive_among internal x.now (map named_of rows.now) }
{
    for (primitive, arity, hidden) in rows {
        if x == primitive.name().as_bytes() && (internal || !*hidden) {
            return Some((*primitive, *arity));
        }
    }
    None
}

fn exactly(p: Primitive, count: usize) -> Option<Operation>
    ensures { result ≡ exactly p count }
{
    if count == p.operands() as usize {
        Some(Operation::Exact(p))
    } else {
        None
    }
}

fn arithmetic(p: Primitive, count: usize) -> Option<Operation>
    ensures { result ≡ arithmetic p count }
{
    if count == 0 {
        Some(Operation::Unit(p))
    } else if count == 1 {
        Some(Operation::UnitAnd(p))
    } else if count == 2 {
        Some(Operation::Exact(p))
    } else {
        Some(Operation::Nested(p))
    }
}

fn comparison(p: Primitive, count: usize) -> Option<Operation>
    ensures { result ≡ comparison p count }
{
    if count < 2 {
        None
    } else if count == 2 {
        Some(Operation::Exact(p))
    } else {
        Some(Operation::Chained(p))
    }
}

/// `make-string` and `make-vector`.
fn filling(p: Primitive, count: usize) -> Option<Operation>
    ensures { result ≡ filling p count }
{
    if count == 1 {
        Some(Operation::Filled(p))
    } else {
        exactly(p, count)
    }
}

/// The operation of a primitive with `count` operands.
fn admitted(arity: Arity, p: Primitive, count: usize) -> Option<Operation>
    ensures { result ≡ admitted arity p count }
{
    match arity {
        Arity::Fixed => exactly(p, count),
        Arity::AnyNumber => arithmetic(p, count),
        Arity::OneOrMore => {
            if count == 0 {
                None
            } else {
                arithmetic(p, count)
            }
        }
        Arity::TwoOrMore => comparison(p, count),
        Arity::FillOptional => filling(p, count),
    }
}

/// The operation whose name is that of no primitive: `not`.
fn other_operation(x: &[u8], count: usize) -> Option<Operation>
    ensures { result ≡ other_operation x.now count }
{
    if x == b"not".as_slice() && count == 1 {
        Some(Operation::Not)
    } else {
        None
    }
}

/// The operation of this name with `count` operands. Names that begin with `%` are those of operations
/// in the text of a library alone.
#[tactic(auto, unfolding(crate::specs::Operations::operation_of))]
pub fn operation_of(internal: bool, x: &[u8], count: usize) -> Option<Operation>
    ensures { result ≡ operation_of internal x.now count }
{
    match primitive_among(internal, x, primitives_of_length(x.len())) {
        Some((p, arity)) => admitted(arity, p, count),
        None => other_operation(x, count),
    }
}

/// What the results of the operation begin with.
pub fn unit_of(p: Primitive) -> i64
    ensures { result ≡ unit_of p }
{
    match p {
        Primitive::Multiply => 1,
        _ => 0,
    }
}
