//! The verb `list`.

ghost use Rattle.sch_cli.specs.Lists.{ListsSource};
ghost use Rattle.sch_cli.specs.Seen.{HadAtMostCalls, HadCalls, SameFiles, disk_change, stream_change};

use crate::build::build_listed;
use crate::failure::Failure;
use crate::file::read_file;
use crate::print::print;
use sch_driver::MAX_SOURCE_SIZE;
use sch_io::{Disk, Outlet};
use sch_listing::print_listing;
use sch_word::Limits;
use std::alloc::Global;

/// Compiles a source under these limits and prints its listing.
pub fn list_source<D: Disk, O: Outlet>(
    alloc: Global,
    source: &str,
    limits: Limits,
    disk: &mut D,
    out: &mut O,
) -> Result<(), Failure>
    ensures unchanged { SameFiles (disk_change D.files D.faults D.calls disk.old disk.new) }
    ensures calls { HadCalls 1 (disk_change D.files D.faults D.calls disk.old disk.new) }
    ensures few_calls { HadAtMostCalls 1 (disk_change D.files D.faults D.calls disk.old disk.new) }
    ensures listed { ListsSource source.now limits.heap limits.depth
        (disk_change D.files D.faults D.calls disk.old disk.new) (stream_change O.bytes O.left O.faults out.old out.new) result }
{
    let text = read_file(alloc, disk, source, MAX_SOURCE_SIZE)?;
    let compiled = build_listed(alloc, text.as_slice(), limits)?;
    let listing = print_listing(alloc, &compiled.listing)?;
    print(out, listing.as_slice())
}
