//! The verbs `run` and `step`.

ghost use Rattle.std.specs.Prelude.{◌≡◌, ◌≢◌};
ghost use Rattle.sch_cli.specs.Messages.{Says};
ghost use Rattle.sch_cli.specs.Seen.{HadAtMostCalls, HadCalls, SameFiles, disk_change, stream_change};
ghost use Rattle.sch_cli.specs.Statuses.{status_number};
ghost use Rattle.sch_cli.specs.Steps.{RunsSource, StepsImage, run_line, run_status};

use crate::build::image_of;
use crate::execute::execute;
use crate::failure::{Failure, say_failure};
use crate::file::read_file;
use crate::message::say_end;
use crate::status::Status;
use sch_commands::SourceRun;
use sch_driver::MAX_SOURCE_SIZE;
use sch_elf::read_image;
use sch_io::{Disk, Outlet};
use sch_step::RunEnd;
use std::alloc::Global;

/// The most bytes of an image's file: 128 MiB.
const MAX_IMAGE_FILE_SIZE: u64 = 1 << 27;

/// Compiles a source under its limits and runs its image.
pub fn run_source<D: Disk, O: Outlet>(
    alloc: Global,
    wanted: SourceRun,
    disk: &mut D,
    out: &mut O,
) -> Result<RunEnd, Failure>
    ensures unchanged { SameFiles (disk_change D.files D.faults D.calls disk.old disk.new) }
    ensures calls { HadCalls 1 (disk_change D.files D.faults D.calls disk.old disk.new) }
    ensures few_calls { HadAtMostCalls 1 (disk_change D.files D.faults D.calls disk.old disk.new) }
    ensures ran { RunsSource wanted.entry.source.now wanted.entry.limits.heap wanted.entry.limits.depth wanted.entry.steps
        (disk_change D.files D.faults D.calls disk.old disk.new) (stream_change O.bytes O.left O.faults out.old out.new) result }
    ensures no_image { status_number (run_status result) ≢ 8 }
{
    let text = read_file(alloc, disk, wanted.source, MAX_SOURCE_SIZE)?;
    let image = image_of(alloc, text.as_slice(), wanted.limits)?;
    let end = execute(alloc, &image, wanted.steps, out)?;
    Ok(end)
}

/// Reads an image and runs it.
pub fn step_image<D: Disk, O: Outlet>(
    alloc: Global,
    name: &str,
    steps: u64,
    disk: &mut D,
    out: &mut O,
) -> Result<RunEnd, Failure>
    ensures unchanged { SameFiles (disk_change D.files D.faults D.calls disk.old disk.new) }
    ensures calls { HadCalls 1 (disk_change D.files D.faults D.calls disk.old disk.new) }
    ensures few_calls { HadAtMostCalls 1 (disk_change D.files D.faults D.calls disk.old disk.new) }
    ensures stepped { StepsImage name.now steps (disk_change D.files D.faults D.calls disk.old disk.new)
        (stream_change O.bytes O.left O.faults out.old out.new) result }
{
    let file = read_file(alloc, disk, name, MAX_IMAGE_FILE_SIZE)?;
    let image = read_image(alloc, file.as_slice())?;
    let end = execute(alloc, &image, steps, out)?;
    Ok(end)
}

/// Says how a run ended, and answers its status.
pub fn report_run<E: Outlet>(err: &mut E, name: &str, answer: &Result<RunEnd, Failure>) -> Status
    ensures status { result ≡ run_status answer.now }
    ensures no_usage { status_number result ≢ 1 }
    ensures line { Says (run_line name.now answer.now) (stream_change E.bytes E.left E.faults err.old err.new) }
{
    match answer {
        Ok(end) => {
            say_end(err, name, *end);
            Status::of_end(*end)
        }
        Err(failure) => {
            say_failure(err, name, failure);
            failure.status()
        }
    }
}
