//! The verb `gen`: the text that is made of a number is compiled and run, and its figures are printed.

ghost use Rattle.std.specs.Prelude.{◌≡◌, ◌≢◌, ◌≤◌, ◌<◌, ◌^◌, length, IfOk, IfErr, IfSome, OnOk};
ghost use Rattle.std.specs.Fmt.{decimal};
ghost use Rattle.sch_driver.specs.Causes.{max_source_size};
ghost use Rattle.sch_cli.specs.Executes.{EndsAlone};
ghost use Rattle.sch_cli.specs.Failures.{done_line, done_status};
ghost use Rattle.sch_cli.specs.Figures.{AreFiguresOf, HasNoFigures};
ghost use Rattle.sch_cli.specs.Messages.{Says};
ghost use Rattle.sch_cli.specs.Prints.{Generates};
ghost use Rattle.sch_cli.specs.Seen.{stream_change};
ghost use Rattle.sch_cli.specs.Statuses.{status_number};

use crate::build::{build_listed, image_in};
use crate::execute::execute;
use crate::failure::Failure;
use crate::figures::{Figures, print_figures};
use crate::print::{print, report_printed};
use crate::status::Status;
use itoa::Buffer;
use sch_commands::default_limits;
use sch_elf::Image;
use sch_generator::generate;
use sch_io::{MemOutlet, Outlet};
use sch_step::RunEnd;
use sch_word::Mem;
use std::alloc::Global;

/// The first room for the output of a program, in bytes.
const FIRST_ROOM: usize = 65536;

/// How a program ended, and how many bytes it wrote.
#[derive(Clone, Copy)]
pub struct LoneRun {
    pub end: RunEnd,
    pub output: u64,
}

/// Prints the figures of the text that is made of a number.
pub fn generate_program<O: Outlet>(
    alloc: Global,
    number: u32,
    steps: u64,
    out: &mut O,
) -> Result<(), Failure>
    ensures generates { Generates number steps (stream_change O.bytes O.left O.faults out.old out.new) result }
    ensures no_image { status_number (done_status result) ≢ 8 }
{
    let source = generate(alloc, number)?;
    let figures = measure(alloc, source.as_slice(), steps)?;
    let text = print_figures(alloc, figures)?;
    print(out, text.as_slice())
}

/// Says how it ended, and answers its status.
pub fn report_generated<E: Outlet>(err: &mut E, number: u32, answer: &Result<(), Failure>) -> Status
    ensures status { result ≡ done_status answer.now }
    ensures no_usage { status_number result ≢ 1 }
    ensures line { Says (done_line (decimal number) answer.now) (stream_change E.bytes E.left E.faults err.old err.new) }
{
    let mut buffer = Buffer::new();
    report_printed(err, buffer.format(number), answer)
}

// The figures of a text that is compiled under the default limits and run.
fn measure(alloc: Global, text: &[u8], steps: u64) -> Result<Figures, Failure>
    requires { length text.now ≤ max_source_size }
    ensures measured { IfOk result (AreFiguresOf text.now steps) }
    ensures not_measured { IfErr result (HasNoFigures text.now steps) }
{
    let compiled = build_listed(alloc, text, default_limits())?;
    let image = image_in(alloc, compiled.file.as_slice())?;
    let lone = run_alone(alloc, &image, steps)?;
    match lone.end {
        RunEnd::Exited(status) => Ok(Figures {
            source: text.len() as u64,
            image: compiled.file.len() as u64,
            instructions: compiled.listing.instructions,
            output: lone.output,
            status,
        }),
        RunEnd::Spent => Err(Failure::StepsSpent),
        // The image of a compiled program is never stuck.
        RunEnd::Stuck(_) => unreachable!(),
    }
}

// Runs an image where no answers of the kernel are held ready. A room that was too small for its output is doubled.
fn run_alone(alloc: Global, image: &Image, steps: u64) -> Result<LoneRun, Mem>
    ensures { IfOk result (EndsAlone image.now steps) }
{
    let mut room = FIRST_ROOM;
    'rooms: loop {
        if let Some(lone) = run_within(alloc, image, steps, room)? {
            return Ok(lone);
        }
        room *= 2;
    }
}

// Runs an image with room for so many bytes of output, if they suffice. There is memory for fewer than 2^63 bytes alone.
fn run_within(alloc: Global, image: &Image, steps: u64, room: usize) -> Result<Option<LoneRun>, Mem>
    ensures ends { IfOk result (λ found. IfSome found (EndsAlone image.now steps)) }
    ensures room { OnOk result (room < 2 ^ 63) }
{
    let mut outlet = MemOutlet::new(alloc, &[], room)?;
    let end = execute(alloc, image, steps, &mut outlet)?;
    match outlet.told() {
        Some(bytes) => Ok(Some(LoneRun {
            end,
            output: bytes.len() as u64,
        })),
        None => Ok(None),
    }
}
