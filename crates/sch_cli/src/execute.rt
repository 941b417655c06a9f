//! Runs an image over an outlet.

ghost use Rattle.std.specs.Prelude.{◌≡◌, IfOk, OnErr};
ghost use Rattle.sch_cli.specs.Executes.{Executes};
ghost use Rattle.sch_cli.specs.Seen.{stream_change};

use sch_elf::Image;
use sch_io::Outlet;
use sch_step::{RunEnd, load, run};
use sch_word::Mem;
use std::alloc::Global;

/// Runs the image, of at most `steps` steps. Where there is no memory to load it nothing is taken.
pub fn execute<O: Outlet>(
    alloc: Global,
    image: &Image,
    steps: u64,
    out: &mut O,
) -> Result<RunEnd, Mem>
    ensures ok { IfOk result (λ end. Executes image.now steps end (stream_change O.bytes O.left O.faults out.old out.new)) }
    ensures err { OnErr result (out.new ≡ out.old) }
{
    let mut machine = load(alloc, image)?;
    Ok(run(&mut machine, out, steps))
}
