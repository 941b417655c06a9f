//! Stops: their statuses and texts.

ghost use Rattle.std.specs.Prelude.{◌≡◌, ◌↔◌, Some};
ghost use Rattle.sch_word.specs.runs.Stops.{status_of, stop_of, text_of};

/// The ten ways in which a program stops before its end.
#[derive(Clone, Copy)]
pub enum Stop {
    WrongType,
    OutOfRange,
    NotProcedure,
    WrongCount,
    DivideByZero,
    Overflow,
    HeapLimit,
    DepthLimit,
    Unset,
    OutputFailed,
}

impl Stop {
    /// The exit status that names the stop.
    pub fn status(self) -> u8
        ensures { result ≡ status_of self }
    {
        match self {
            Stop::WrongType => 65,
            Stop::OutOfRange => 66,
            Stop::NotProcedure => 67,
            Stop::WrongCount => 68,
            Stop::DivideByZero => 69,
            Stop::Overflow => 70,
            Stop::HeapLimit => 71,
            Stop::DepthLimit => 72,
            Stop::Unset => 73,
            Stop::OutputFailed => 74,
        }
    }

    /// The stop that an exit status names, and `None` exactly where it names none.
    pub fn of_status(status: u8) -> Option<Stop>
        ensures value { result ≡ stop_of status }
        ensures inverse { (stop : Stop) → (result ≡ Some stop) ↔ (status_of stop ≡ status) }
    {
        match status {
            65 => Some(Stop::WrongType),
            66 => Some(Stop::OutOfRange),
            67 => Some(Stop::NotProcedure),
            68 => Some(Stop::WrongCount),
            69 => Some(Stop::DivideByZero),
            70 => Some(Stop::Overflow),
            71 => Some(Stop::HeapLimit),
            72 => Some(Stop::DepthLimit),
            73 => Some(Stop::Unset),
            74 => Some(Stop::OutputFailed),
            _ => None,
        }
    }

    /// The stop's text in a message, in ASCII.
    pub fn text(self) -> &'static str
        ensures { result.now ≡ text_of self }
    {
        match self {
            Stop::WrongType => "wrong type",
            Stop::OutOfRange => "out of range",
            Stop::NotProcedure => "not a procedure",
            Stop::WrongCount => "wrong argument count",
            Stop::DivideByZero => "division by zero",
            Stop::Overflow => "fixnum overflow",
            Stop::HeapLimit => "heap limit",
            Stop::DepthLimit => "depth limit",
            Stop::Unset => "unset variable",
            Stop::OutputFailed => "output failed",
        }
    }
}
