//! How many units of 16 bytes the objects of literals take.

ghost use Rattle.std.specs.Prelude.{◌≡◌, ◌≤◌, ◌^◌, sum_by};
ghost use Rattle.sch_word.specs.values.LiteralParts.{lent};
ghost use Rattle.sch_word.specs.values.LiteralView.{literal};
ghost use Rattle.sch_select_data.specs.PlacedWords.{own_units};

use sch_word::Lit;

// How many units the objects of a literal take that are none of its parts'.
fn own_units(l: &Lit) -> u64
    requires { own_units (literal l.now) ≤ 2 ^ 27 }
    ensures { result ≡ own_units (literal l.now) }
{
    match l {
        Lit::Constant(_) => 0,
        Lit::Text(bytes) => 1 + (bytes.len() as u64 + 7) / 16,
        Lit::List(items, _) => items.len() as u64,
        Lit::Vector(items) => 1 + items.len() as u64 / 2,
    }
}

/// How many units the objects of these literals take, each without those of its parts.
pub fn units_of_nodes(nodes: &[&Lit]) -> u64
    requires { sum_by own_units (lent nodes.now) ≤ 2 ^ 27 }
    ensures { result ≡ sum_by own_units (lent nodes.now) }
{
    let mut units = 0;
    for l in nodes {
        units += own_units(l);
    }
    units
}
