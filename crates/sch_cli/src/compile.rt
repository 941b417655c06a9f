//! The verb `compile`.

ghost use Rattle.std.specs.Prelude.{◌≡◌, ◌≢◌, ◌≤◌};
ghost use Rattle.std.specs.Option.{option_map};
ghost use Rattle.sch_cli.specs.Compiles.{Compiles, EndsCompile, compile_line, concerned};
ghost use Rattle.sch_cli.specs.Failures.{done_status};
ghost use Rattle.sch_cli.specs.Messages.{Says};
ghost use Rattle.sch_cli.specs.Seen.{disk_change, stream_change};
ghost use Rattle.sch_cli.specs.Statuses.{status_number};

use crate::build::build_listed;
use crate::failure::{Failure, say_failure};
use crate::file::{read_file, write_both, write_file};
use crate::status::Status;
use sch_commands::Compilation;
use sch_driver::MAX_SOURCE_SIZE;
use sch_io::{Disk, Outlet};
use sch_listing::print_listing;
use std::alloc::Global;

/// Reads the source, and writes the program that it means under these limits, and then its listing, where a name is given
/// for it. The texts are made before the first write.
pub fn compile<D: Disk>(alloc: Global, wanted: Compilation, disk: &mut D) -> Result<(), Failure>
    ensures { let listing = option_map (λ name. name.now) wanted.entry.listing in
        Compiles wanted.entry.source.now wanted.entry.target.now listing wanted.entry.limits.heap wanted.entry.limits.depth
        (disk_change D.files D.faults D.calls disk.old disk.new) result }
{
    let text = read_file(alloc, disk, wanted.source, MAX_SOURCE_SIZE)?;
    let compiled = build_listed(alloc, text.as_slice(), wanted.limits)?;
    match wanted.listing {
        None => write_file(disk, wanted.target, compiled.file.as_slice()),
        Some(name) => {
            let listing = print_listing(alloc, &compiled.listing)?;
            write_both(
                disk,
                wanted.target,
                compiled.file.as_slice(),
                name,
                listing.as_slice(),
            )
        }
    }
}

/// Says how a compilation ended, and answers its status.
pub fn report_compile<E: Outlet>(
    err: &mut E,
    wanted: Compilation,
    answer: &Result<(), Failure>,
) -> Status
    ensures status { result ≡ done_status answer.now }
    ensures no_usage { status_number result ≢ 1 }
    ensures line { let listing = option_map (λ name. name.now) wanted.entry.listing in
        Says (compile_line wanted.entry.source.now wanted.entry.target.now listing answer.now)
        (stream_change E.bytes E.left E.faults err.old err.new) }
{
    match answer {
        Ok(()) => Status::Done,
        Err(failure) => {
            say_failure(err, concerned(wanted, failure), failure);
            failure.status()
        }
    }
}

// The file that a failure concerns.
fn concerned<'a>(wanted: Compilation<'a>, failure: &Failure) -> &'a str
    ensures { result.now ≡ concerned wanted.entry.source.now wanted.entry.target.now (option_map (λ name. name.now) wanted.entry.listing) failure.now }
{
    match failure {
        Failure::WriteFailed => wanted.target,
        Failure::ListingFailed => match wanted.listing {
            Some(name) => name,
            None => wanted.source,
        },
        _ => wanted.source,
    }
}
