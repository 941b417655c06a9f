//! Data that may be quoted: they have the integers and bytes that their types keep.

ghost use Rattle.std.specs.Prelude.{◌≡◌, true, OnOk};
ghost use Rattle.sch_word.specs.values.Fixnum.{is_fixnum};
ghost use Rattle.sch_word.specs.values.Values.{is_byte, are_bytes};
ghost use Rattle.sch_read.specs.Views.{tree_of, data_of, atom_of};
ghost use Rattle.sch_core.specs.Quotable.{atom_in_range, own_in_range, AllQuotable};

use sch_read::{Atom, Datum, enter_parts};
use sch_word::{Fix, Mem, ToVisit};
use std::alloc::Global;

/// A list of bytes has bytes, by its type.
fn know_bytes(x: &[u8])
    ensures { are_bytes x.now ≡ true }
{}

fn know_byte(byte: u8)
    ensures { is_byte byte ≡ true }
{}

fn know_fixnum(n: Fix)
    ensures { is_fixnum n ≡ true }
{
    let _value = n.get();
}

/// What an atom has is in range, by its type.
fn know_atom(a: &Atom)
    ensures { atom_in_range (atom_of a.now) ≡ true }
{
    match a {
        Atom::Boolean(_) => {}
        Atom::Integer(n) => know_fixnum(*n),
        Atom::Character(byte) => know_byte(*byte),
        Atom::Text(bytes) => know_bytes(bytes.as_slice()),
        Atom::Symbol(x) => know_bytes(x.as_slice()),
    }
}

/// What a datum has beside its parts is in range, by its type.
fn know_own(d: &Datum)
    ensures { own_in_range (tree_of d.now) ≡ true }
{
    match d.atom() {
        Some(a) => know_atom(a),
        None => {}
    }
}

/// What data have at any level is in range, by their types.
pub(crate) fn know_data(alloc: Global, items: &[Datum]) -> Result<(), Mem>
    ensures { OnOk result (AllQuotable (data_of items.now)) }
{
    let mut left = ToVisit::new(alloc, items);
    'each: while let Some(d) = left.next() {
        know_own(d);
        enter_parts(d, &mut left)?;
    }
    Ok(())
}
