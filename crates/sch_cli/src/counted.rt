//! The verb `count`: a source is compiled and run, and what its activations save is counted and printed.

ghost use Rattle.std.specs.Prelude.{◌≢◌, ◌≤◌, length, IfOk, IfErr};
ghost use Rattle.sch_driver.specs.Causes.{max_source_size};
ghost use Rattle.sch_cli.specs.Counts.{CountsImage, CountsSource, EntersListed, IsCountsText};
ghost use Rattle.sch_cli.specs.Failures.{done_status};
ghost use Rattle.sch_cli.specs.LoneRuns.{HasNoExit};
ghost use Rattle.sch_cli.specs.Seen.{HadAtMostCalls, HadCalls, SameFiles, disk_change, stream_change};
ghost use Rattle.sch_cli.specs.Statuses.{status_number};

use crate::build::{build_listed, image_in};
use crate::failure::Failure;
use crate::file::read_file;
use crate::print::print;
use sch_commands::SourceRun;
use sch_count::{CountError, Counts, Extent, count, print_counts};
use sch_driver::MAX_SOURCE_SIZE;
use sch_elf::Image;
use sch_io::{Disk, NullOutlet, Outlet};
use sch_listing::Listing;
use sch_step::load;
use sch_word::{Bytes, Limits};
use std::alloc::Global;

/// Compiles a source under its limits, runs its image where no answers of the kernel are held ready, and prints the counts of
/// its bodies.
pub fn count_source<D: Disk, O: Outlet>(
    alloc: Global,
    wanted: SourceRun,
    disk: &mut D,
    out: &mut O,
) -> Result<(), Failure>
    ensures unchanged { SameFiles (disk_change D.files D.faults D.calls disk.old disk.new) }
    ensures calls { HadCalls 1 (disk_change D.files D.faults D.calls disk.old disk.new) }
    ensures few_calls { HadAtMostCalls 1 (disk_change D.files D.faults D.calls disk.old disk.new) }
    ensures counted { CountsSource wanted.entry.source.now wanted.entry.limits.heap wanted.entry.limits.depth wanted.entry.steps
        (disk_change D.files D.faults D.calls disk.old disk.new) (stream_change O.bytes O.left O.faults out.old out.new) result }
    ensures no_image { status_number (done_status result) ≢ 8 }
{
    let source = read_file(alloc, disk, wanted.source, MAX_SOURCE_SIZE)?;
    let text = counted_text(alloc, source.as_slice(), wanted.limits, wanted.steps)?;
    print(out, text.as_slice())
}

// The text of the counts of a source that is compiled under these limits and run.
fn counted_text(alloc: Global, source: &[u8], limits: Limits, steps: u64) -> Result<Bytes, Failure>
    requires { length source.now ≤ max_source_size }
    ensures counted { IfOk result (IsCountsText source.now limits.heap limits.depth steps) }
    ensures not_counted { IfErr result (HasNoExit source.now limits.heap limits.depth steps) }
{
    let compiled = build_listed(alloc, source, limits)?;
    let image = image_in(alloc, compiled.file.as_slice())?;
    match count_image(alloc, &image, &compiled.listing, steps) {
        Ok(counts) => Ok(print_counts(alloc, compiled.listing.bodies.as_slice(), &counts)?),
        Err(CountError::Spent) => Err(Failure::StepsSpent),
        Err(CountError::Memory) => Err(Failure::Memory),
        // The image of a compiled program is never stuck.
        Err(CountError::Stuck(_)) => unreachable!(),
    }
}

// Counts the activations of a run of an image, by what is listed of it.
fn count_image(
    alloc: Global,
    image: &Image,
    listing: &Listing,
    steps: u64,
) -> Result<Counts, CountError>
    requires { EntersListed listing.now }
    ensures { CountsImage image.now listing.now steps result }
{
    let mut machine = load(alloc, image)?;
    let mut outlet = NullOutlet::new();
    let extent = Extent {
        bodies: listing.bodies.len() as u32,
        steps,
    };
    count(
        alloc,
        &mut machine,
        &mut outlet,
        listing.marks.as_slice(),
        extent,
    )
}
