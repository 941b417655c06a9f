//! Primitives: their names and how many operands each takes.

ghost use Rattle.std.specs.Prelude.{◌≡◌};
ghost use Rattle.sch_word.specs.values.Primitives.{name_of, operands_of};

/// A primitive: an operation that a program names and that is never a call.
///
/// Those whose names begin with `%` are the project's own and stand in the library's text alone. The
/// others are procedures of R5RS, chapter 6, at one count of operands.
#[derive(Clone, Copy)]
pub enum Primitive {
    Eq,
    Eqv,
    IsBoolean,
    IsPair,
    IsNull,
    IsSymbol,
    IsInteger,
    IsChar,
    IsString,
    IsVector,
    IsProcedure,
    Cons,
    Car,
    Cdr,
    SetCar,
    SetCdr,
    Add,
    Subtract,
    Multiply,
    Quotient,
    Remainder,
    Modulo,
    Equal,
    Less,
    Greater,
    LessEqual,
    GreaterEqual,
    CharToInteger,
    IntegerToChar,
    MakeString,
    StringLength,
    StringRef,
    StringSet,
    MakeVector,
    VectorLength,
    VectorRef,
    VectorSet,
    Put,
    SymbolLength,
    SymbolRef,
}

impl Primitive {
    /// The name of the primitive in a program's text, in ASCII.
    pub fn name(self) -> &'static str
        ensures { result.now ≡ name_of self }
    {
        match self {
            Primitive::Eq => "eq?",
            Primitive::Eqv => "eqv?",
            Primitive::IsBoolean => "boolean?",
            Primitive::IsPair => "pair?",
            Primitive::IsNull => "null?",
            Primitive::IsSymbol => "symbol?",
            Primitive::IsInteger => "integer?",
            Primitive::IsChar => "char?",
            Primitive::IsString => "string?",
            Primitive::IsVector => "vector?",
            Primitive::IsProcedure => "procedure?",
            Primitive::Cons => "cons",
            Primitive::Car => "car",
            Primitive::Cdr => "cdr",
            Primitive::SetCar => "set-car!",
            Primitive::SetCdr => "set-cdr!",
            Primitive::Add => "+",
            Primitive::Subtract => "-",
            Primitive::Multiply => "*",
            Primitive::Quotient => "quotient",
            Primitive::Remainder => "remainder",
            Primitive::Modulo => "modulo",
            Primitive::Equal => "=",
            Primitive::Less => "<",
            Primitive::Greater => ">",
            Primitive::LessEqual => "<=",
            Primitive::GreaterEqual => ">=",
            Primitive::CharToInteger => "char->integer",
            Primitive::IntegerToChar => "integer->char",
            Primitive::MakeString => "make-string",
            Primitive::StringLength => "string-length",
            Primitive::StringRef => "string-ref",
            Primitive::StringSet => "string-set!",
            Primitive::MakeVector => "make-vector",
            Primitive::VectorLength => "vector-length",
            Primitive::VectorRef => "vector-ref",
            Primitive::VectorSet => "vector-set!",
            Primitive::Put => "%put",
            Primitive::SymbolLength => "%symbol-length",
            Primitive::SymbolRef => "%symbol-ref",
        }
    }

    /// How many operands the primitive takes.
    pub fn operands(self) -> u32
        ensures { result ≡ operands_of self }
    {
        match self {
            Primitive::Eq => 2,
            Primitive::Eqv => 2,
            Primitive::IsBoolean => 1,
            Primitive::IsPair => 1,
            Primitive::IsNull => 1,
            Primitive::IsSymbol => 1,
            Primitive::IsInteger => 1,
            Primitive::IsChar => 1,
            Primitive::IsString => 1,
            Primitive::IsVector => 1,
            Primitive::IsProcedure => 1,
            Primitive::Cons => 2,
            Primitive::Car => 1,
            Primitive::Cdr => 1,
            Primitive::SetCar => 2,
            Primitive::SetCdr => 2,
            Primitive::Add => 2,
            Primitive::Subtract => 2,
            Primitive::Multiply => 2,
            Primitive::Quotient => 2,
            Primitive::Remainder => 2,
            Primitive::Modulo => 2,
            Primitive::Equal => 2,
            Primitive::Less => 2,
            Primitive::Greater => 2,
            Primitive::LessEqual => 2,
            Primitive::GreaterEqual => 2,
            Primitive::CharToInteger => 1,
            Primitive::IntegerToChar => 1,
            Primitive::MakeString => 2,
            Primitive::StringLength => 1,
            Primitive::StringRef => 2,
            Primitive::StringSet => 3,
            Primitive::MakeVector => 2,
            Primitive::VectorLength => 1,
            Primitive::VectorRef => 2,
            Primitive::VectorSet => 3,
            Primitive::Put => 1,
            Primitive::SymbolLength => 1,
            Primitive::SymbolRef => 2,
        }
    }
}
