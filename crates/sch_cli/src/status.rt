//! The program's exit statuses.

ghost use Rattle.std.specs.Prelude.{◌≡◌, ◌≢◌};
ghost use Rattle.sch_cli.specs.Statuses.{end_status, exit_status, status_number};

use sch_step::RunEnd;
use sch_word::Stop;

/// How a call of the program ended.
#[derive(Clone, Copy)]
pub enum Status {
    /// What the command asks for was done; under `run` and `step` the image exited with 0.
    Done,
    /// The words are no command.
    Usage,
    /// A file was not read.
    ReadFailed,
    /// A file was not written, or the text that the command prints.
    WriteFailed,
    /// The reader does not accept the text.
    BadText,
    /// The text has a bad form, or defines a keyword.
    BadForm,
    /// The text has a variable that is nowhere bound.
    Unbound,
    /// A limit was passed.
    PastLimit,
    /// A file stands for no image, or its image got stuck or exited with a status of its own.
    BadImage,
    /// The steps were spent.
    StepsSpent,
    /// There was no memory.
    OutOfMemory,
    /// The image ended with this stop.
    Stopped(Stop),
}

impl Status {
    /// The number with which the process exits.
    pub fn number(self) -> u8
        ensures number { result ≡ status_number self }
    {
        match self {
            Status::Done => 0,
            Status::Usage => 1,
            Status::ReadFailed => 2,
            Status::WriteFailed => 3,
            Status::BadText => 4,
            Status::BadForm => 5,
            Status::Unbound => 6,
            Status::PastLimit => 7,
            Status::BadImage => 8,
            Status::StepsSpent => 9,
            Status::OutOfMemory => 10,
            Status::Stopped(stop) => stop.status(),
        }
    }

    /// The status for how a run of an image ended.
    pub fn of_end(end: RunEnd) -> Status
        ensures status { result ≡ end_status end }
        ensures no_usage { result ≢ Status.Usage }
    {
        match end {
            RunEnd::Spent => Status::StepsSpent,
            RunEnd::Exited(status) => Status::of_exit(status),
            RunEnd::Stuck(_) => Status::BadImage,
        }
    }

    fn of_exit(status: u8) -> Status
        ensures status { result ≡ exit_status status }
        ensures no_usage { result ≢ Status.Usage }
    {
        if status == 0 {
            return Status::Done;
        }
        match Stop::of_status(status) {
            Some(stop) => Status::Stopped(stop),
            None => Status::BadImage,
        }
    }
}
