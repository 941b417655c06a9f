//! Prints texts on the standard output.

ghost use Rattle.std.specs.Prelude.{◌≡◌, ◌≢◌};
ghost use Rattle.sch_cli.specs.Failures.{done_line, done_status};
ghost use Rattle.sch_cli.specs.Messages.{Says};
ghost use Rattle.sch_cli.specs.Prints.{Prints};
ghost use Rattle.sch_cli.specs.Seen.{stream_change};
ghost use Rattle.sch_cli.specs.Statuses.{status_number};

use crate::failure::{Failure, say_failure};
use crate::status::Status;
use sch_io::{Outlet, put_all};

/// Prints a text. The only failure is that of the output.
pub fn print<O: Outlet>(out: &mut O, text: &[u8]) -> Result<(), Failure>
    ensures { Prints text.now (stream_change O.bytes O.left O.faults out.old out.new) result }
{
    if put_all(out, text) {
        Ok(())
    } else {
        Err(Failure::OutputFailed)
    }
}

/// Says how a command ended that prints a text on what is called `name`, and answers its status.
pub fn report_printed<E: Outlet>(err: &mut E, name: &str, answer: &Result<(), Failure>) -> Status
    ensures status { result ≡ done_status answer.now }
    ensures no_usage { status_number result ≢ 1 }
    ensures line { Says (done_line name.now answer.now) (stream_change E.bytes E.left E.faults err.old err.new) }
{
    match answer {
        Ok(()) => Status::Done,
        Err(failure) => {
            say_failure(err, name, failure);
            failure.status()
        }
    }
}
