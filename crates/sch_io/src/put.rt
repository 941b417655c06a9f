//! Puts to an outlet.

ghost use Rattle.std.specs.Prelude.{◌≡◌, ◌≤◌, ◌++◌, ℕ, IsTrue, take, false};
ghost use Rattle.sch_io.specs.Counters.{Rose};
ghost use Rattle.sch_io.specs.Puts.{HasPut};
ghost use Rattle.sch_io.specs.Told.{Tells};

use crate::outlet::Outlet;
use sch_word::Answer;

/// Offers a piece to an outlet until nothing is left of it, and says whether all was taken. It ends at
/// the first write that takes nothing or fails. It takes no memory.
pub fn put_all<O: Outlet>(out: &mut O, piece: &[u8]) -> bool
    ensures put { HasPut piece.now (O.bytes out.old) (O.bytes out.new) (O.left out.old) (O.left out.new) result }
    ensures whole { IsTrue result → Tells (O.bytes out.old) (O.bytes out.new) (λ before after. after ≡ before ++ piece.now) }
    ensures front { Tells (O.bytes out.old) (O.bytes out.new) (λ before after. (k : ℕ) × (after ≡ before ++ take k piece.now)) }

    ensures faults { O.faults out.old ≤ O.faults out.new }
    ensures failed_only_where_faults_rose { result ≡ false → Rose (O.faults out.old) (O.faults out.new) }
{
    let mut rest = piece;
    while !rest.is_empty() {
        match out.write(rest) {
            Answer::Took(count) if count > 0 => rest = rest.split_at(count).1,
            _ => return false,
        }
    }
    true
}
