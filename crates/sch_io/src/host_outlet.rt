//! An outlet over a stream of the host.

ghost use Rattle.std.specs.Prelude.{◌≡◌, ◌≤◌, ◌++◌, length};
ghost use Rattle.std.specs.Io.KnownBytes.{Appends};
ghost use Rattle.sch_io.specs.Answers.{AnswersNext, IsRefusal, IsWithin, taken};
ghost use Rattle.sch_io.specs.Counters.{Rose, raised};
ghost use Rattle.sch_io.specs.Told.{Tells};

use crate::counter::raise;
use crate::outlet::Outlet;
use sch_word::Answer;
use std::io::Write;

/// An outlet over a stream of the host, as standard output. It tells no content; what it takes goes to
/// the stream.
#[derive(Drop)]
pub struct StdOutlet<W> {
    stream: W,
    faults: u64,
}

impl<W> StdOutlet<W> {
    ghost use Rattle.sch_io.specs.OnHost.{writes_failed};

    /// An outlet that has failed in no write.
    pub fn new(stream: W) -> StdOutlet<W>
        ensures { writes_failed result ≡ 0 }
    {
        StdOutlet { stream, faults: 0 }
    }
}

impl<W: Write> Outlet for StdOutlet<W> {
    ghost use Rattle.sch_io.specs.OnHost.{stream_contents, untold_answers, untold_bytes, writes_failed};

    ghost bytes = { untold_bytes };

    ghost left = { untold_answers };

    ghost faults = { writes_failed };

    fn write(&mut self, piece: &[u8]) -> Answer
        ensures within { IsWithin result (length piece.now) }
        ensures bytes { Tells (untold_bytes self.old) (untold_bytes self.new) (λ before after. after ≡ before ++ taken result piece.now) }
        ensures left { Tells (untold_answers self.old) (untold_answers self.new) (AnswersNext (length piece.now) result) }
        ensures faults { writes_failed self.old ≤ writes_failed self.new }
        ensures refused_only_where_faults_rose { IsRefusal result (length piece.now) → Rose (writes_failed self.old) (writes_failed self.new) }

        // The contents of the stream, where std knows them, grow by what was taken, and by nothing else.
        ensures stream { Appends (stream_contents W.contents self.old) (stream_contents W.contents self.new) (taken result piece.now) }

        // A refusal is one fault, and no other answer is one.
        ensures one_fault { IsRefusal result (length piece.now) → writes_failed self.new ≡ raised (writes_failed self.old) }
        ensures no_fault { ¬ IsRefusal result (length piece.now) → writes_failed self.new ≡ writes_failed self.old }
    {
        match self.stream.write(piece) {
            Ok(count) => {
                if count == 0 && !piece.is_empty() {
                    raise(&mut self.faults);
                }
                Answer::Took(count)
            }
            Err(_) => {
                raise(&mut self.faults);
                Answer::Failed
            }
        }
    }
}
