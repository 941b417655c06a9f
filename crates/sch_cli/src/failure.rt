//! Why a command is not done, with the status and the line of each cause.

ghost use Rattle.std.specs.Prelude.{◌≡◌, ◌≢◌, ◌≤◌};
ghost use Rattle.sch_core.specs.declared.error.Kind.{Kind};
ghost use Rattle.sch_cli.specs.Failures.{core_line, core_status, failure_line, failure_status, image_line, image_status, limit_text, part_name, read_line, read_status, refusal_line, refusal_status};
ghost use Rattle.sch_cli.specs.Messages.{Says};
ghost use Rattle.sch_cli.specs.Seen.{stream_change};
ghost use Rattle.sch_cli.specs.declared.failure.Failure.TheVariants as failure;

use crate::message::{say, say_at, say_numbered, say_out_of_memory, say_spent};
use crate::status::Status;
use sch_core::{CoreError, Kind};
use sch_driver::{CompileError, Part};
use sch_elf::ImageError;
use sch_io::Outlet;
use sch_read::ReadError;
use sch_word::Mem;

/// Why a command is not done, with the place where it concerns one.
#[derive(Drop)]
pub enum Failure {
    /// The disk failed in the read of a file.
    ReadFailed,
    /// The disk failed in the write of an executable.
    WriteFailed,
    /// The disk failed in the write of a listing.
    ListingFailed,
    /// A file is longer than it may be.
    TooLong,
    /// The text is not compiled.
    Compile(CompileError),
    /// The file stands for no image.
    Image(ImageError),
    /// The steps of a program that is compiled and run were spent.
    StepsSpent,
    /// The standard output did not take all that the command prints.
    OutputFailed,
    /// There was no memory.
    Memory,
}

impl From<CompileError> for Failure {
    ghost from_gives = { λ error e. e ≡ failure.Compile error };

    fn from(error: CompileError) -> Failure {
        Failure::Compile(error)
    }
}

impl From<ImageError> for Failure {
    ghost from_gives = { λ error e. e ≡ failure.Image error };

    fn from(error: ImageError) -> Failure {
        Failure::Image(error)
    }
}

impl From<Mem> for Failure {
    ghost from_gives = { λ _ e. e ≡ failure.Memory };

    fn from(_cause: Mem) -> Failure {
        Failure::Memory
    }
}

impl Failure {
    /// The program's status for it.
    pub fn status(&self) -> Status
        ensures status { result ≡ failure_status self.now }
        ensures no_usage { result ≢ Status.Usage }
    {
        match self {
            Failure::ReadFailed => Status::ReadFailed,
            Failure::WriteFailed => Status::WriteFailed,
            Failure::ListingFailed => Status::WriteFailed,
            Failure::TooLong => Status::PastLimit,
            Failure::Compile(error) => refusal_status(error),
            Failure::Image(error) => image_status(*error),
            Failure::StepsSpent => Status::StepsSpent,
            Failure::OutputFailed => Status::WriteFailed,
            Failure::Memory => Status::OutOfMemory,
        }
    }
}

fn refusal_status(error: &CompileError) -> Status
    ensures status { result ≡ refusal_status error.now }
    ensures no_usage { result ≢ Status.Usage }
{
    match error {
        CompileError::Read(_, error) => read_status(*error),
        CompileError::Core(_, error) => core_status(error),
        CompileError::StackTooLarge(_) | CompileError::TextTooLarge(_) => Status::PastLimit,
        CompileError::Memory => Status::OutOfMemory,
    }
}

fn read_status(error: ReadError) -> Status
    ensures status { result ≡ read_status error }
    ensures no_usage { result ≢ Status.Usage }
{
    match error {
        ReadError::DeepNesting(_) | ReadError::LiteralRange(_) => Status::PastLimit,
        ReadError::Memory => Status::OutOfMemory,
        _ => Status::BadText,
    }
}

fn core_status(error: &CoreError) -> Status
    ensures status { result ≡ core_status error.now }
    ensures no_usage { result ≢ Status.Usage }
{
    match error {
        CoreError::BadForm(_) | CoreError::KeywordDefined(_) => Status::BadForm,
        CoreError::Unbound(_, _) => Status::Unbound,
        CoreError::Limit(_, _) => Status::PastLimit,
        CoreError::Memory => Status::OutOfMemory,
    }
}

fn image_status(error: ImageError) -> Status
    ensures status { result ≡ image_status error }
    ensures no_usage { result ≢ Status.Usage }
{
    match error {
        ImageError::Memory => Status::OutOfMemory,
        _ => Status::BadImage,
    }
}

/// Says the line of a failure that concerns the file or the number `name`.
pub fn say_failure<E: Outlet>(err: &mut E, name: &str, failure: &Failure)
    ensures line { Says (failure_line name.now failure.now) (stream_change E.bytes E.left E.faults err.old err.new) }
    ensures faults { E.faults err.old ≤ E.faults err.new }
{
    match failure {
        Failure::ReadFailed => say(err, name, ": read failed\n"),
        Failure::WriteFailed | Failure::ListingFailed => say(err, name, ": write failed\n"),
        Failure::TooLong => say(err, name, ": limit file\n"),
        Failure::Compile(error) => say_refusal(err, name, error),
        Failure::Image(error) => say_image_error(err, name, *error),
        Failure::StepsSpent => say_spent(err),
        Failure::OutputFailed => say(err, "output failed", "\n"),
        Failure::Memory => say_out_of_memory(err),
    }
}

fn say_refusal<E: Outlet>(err: &mut E, name: &str, error: &CompileError)
    ensures line { Says (refusal_line name.now error.now) (stream_change E.bytes E.left E.faults err.old err.new) }
    ensures faults { E.faults err.old ≤ E.faults err.new }
{
    match error {
        CompileError::Read(part, error) => say_read_error(err, part_name(name, *part), *error),
        CompileError::Core(part, error) => say_core_error(err, part_name(name, *part), error),
        CompileError::StackTooLarge(_) => say(err, name, ": limit stack\n"),
        CompileError::TextTooLarge(_) => say(err, name, ": limit text\n"),
        CompileError::Memory => say_out_of_memory(err),
    }
}

/// What the line of an error of a part names: the library, or the file.
fn part_name<'a>(name: &'a str, part: Part) -> &'a str
    ensures { result.now ≡ part_name name.now part }
{
    match part {
        Part::Library => "library",
        Part::User => name,
    }
}

fn say_read_error<E: Outlet>(err: &mut E, name: &str, error: ReadError)
    ensures line { Says (read_line name.now error) (stream_change E.bytes E.left E.faults err.old err.new) }
    ensures faults { E.faults err.old ≤ E.faults err.new }
{
    match error {
        ReadError::Unclosed(at) => say_at(err, name, at, "unclosed", b""),
        ReadError::StrayClose(at) => say_at(err, name, at, "stray close", b""),
        ReadError::BadToken(at) => say_at(err, name, at, "bad token", b""),
        ReadError::BadNumber(at) => say_at(err, name, at, "bad number", b""),
        ReadError::BadString(at) => say_at(err, name, at, "bad string", b""),
        ReadError::DeepNesting(at) => say_at(err, name, at, "limit nesting", b""),
        ReadError::LiteralRange(at) => say_at(err, name, at, "limit literal", b""),
        ReadError::Memory => say_out_of_memory(err),
    }
}

fn say_core_error<E: Outlet>(err: &mut E, name: &str, error: &CoreError)
    ensures line { Says (core_line name.now error.now) (stream_change E.bytes E.left E.faults err.old err.new) }
    ensures faults { E.faults err.old ≤ E.faults err.new }
{
    match error {
        CoreError::BadForm(at) => say_at(err, name, *at, "bad form", b""),
        CoreError::KeywordDefined(at) => say_at(err, name, *at, "keyword defined", b""),
        CoreError::Unbound(at, unbound) => say_at(err, name, *at, "unbound ", unbound.as_slice()),
        CoreError::Limit(kind, at) => say_at(err, name, *at, limit_text(*kind), b""),
        CoreError::Memory => say_out_of_memory(err),
    }
}

fn limit_text(kind: Kind) -> &'static str
    ensures { result.now ≡ limit_text kind }
{
    match kind {
        Kind::Operands => "limit operands",
        Kind::Core => "limit core",
        Kind::Variables => "limit variables",
        Kind::Free => "limit free",
    }
}

fn say_image_error<E: Outlet>(err: &mut E, name: &str, error: ImageError)
    ensures line { Says (image_line name.now error) (stream_change E.bytes E.left E.faults err.old err.new) }
    ensures faults { E.faults err.old ≤ E.faults err.new }
{
    match error {
        ImageError::Short => say(err, name, ": short\n"),
        ImageError::NotElf => say(err, name, ": not ELF\n"),
        ImageError::NotThisMachine => say(err, name, ": wrong machine\n"),
        ImageError::BadSegment(index) => say_numbered(err, name, ": segment ", index as u64),
        ImageError::TooLarge => say(err, name, ": too large\n"),
        ImageError::Memory => say_out_of_memory(err),
    }
}
