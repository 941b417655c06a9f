//! Data, as R5RS writes them.

ghost use Rattle.std.specs.Prelude.{◌≡◌, MatchOption};
ghost use Rattle.sch_read.specs.declared.datum.Datum.{out-Datum};

use crate::release::release;
use sch_word::{Bytes, Fix, List};

/// A datum of a text, with the place of its first byte.
#[cycle(datum)]
pub struct Datum {
    /// The number of bytes before the datum.
    pub at: u32,
    pub node: Node,
}

impl Datum {
    ghost use Rattle.sch_read.specs.Grammar.{none, cons, list, atom, symbol};
    ghost use Rattle.sch_read.specs.Parts.{offset, how_many, IsNoAtom, IsNoSymbol, IsNoProperList};
    ghost use Rattle.sch_read.specs.Views.{atom_of, tree_of, data_of};

    /// The offset of the datum: the number of bytes before it.
    pub fn offset(&self) -> u32
        ensures { result ≡ offset (tree_of self.now) }
    {
        self.at
    }

    /// The atom that the datum is, if it is one.
    pub fn atom(&self) -> Option<&Atom>
        ensures { MatchOption result (IsNoAtom (tree_of self.now))
            (λ a. tree_of self.now ≡ atom (offset (tree_of self.now)) (atom_of a.now)) }
    {
        match &self.node {
            Node::Atom(value) => Some(value),
            _ => None,
        }
    }

    /// The name of the symbol that the datum is, if it is one.
    pub fn name(&self) -> Option<&[u8]>
        ensures { MatchOption result (IsNoSymbol (tree_of self.now))
            (λ x. tree_of self.now ≡ atom (offset (tree_of self.now)) (symbol x.now)) }
    {
        match self.atom() {
            Some(Atom::Symbol(name)) => Some(name.as_slice()),
            _ => None,
        }
    }

    /// The data of the list that the datum is, if it is one without a dot.
    pub fn items(&self) -> Option<&[Datum]>
        ensures { MatchOption result (IsNoProperList (tree_of self.now))
            (λ items. tree_of self.now ≡ list (offset (tree_of self.now)) (data_of items.now)) }
    {
        match &self.node {
            Node::List(items, None) => Some(items.as_slice()),
            _ => None,
        }
    }

    /// The first of some data and those after it, if there is one.
    pub fn split(items: &[Datum]) -> Option<(&Datum, &[Datum])>
        ensures { MatchOption result (data_of items.now ≡ none)
            (λ p. data_of items.now ≡ cons (tree_of p.0.now) (data_of p.1.now)) }
    {
        items.split_first()
    }

    /// How many data there are.
    #[tactic(auto, using(crate::proofs::DataLists::how_many_is))]
    pub fn count(items: &[Datum]) -> usize
        ensures { result ≡ how_many (data_of items.now) }
    {
        items.len()
    }

    /// Takes the datum apart.
    pub(crate) fn into_parts(self) -> (u32, Node)
        ensures at { result.0 ≡ (out-Datum self).at }
        ensures node { result.1 ≡ (out-Datum self).node }
    {
        let Datum { at, node } = self;
        (at, node)
    }
}

impl Drop for Datum {
    fn drop(self) {
        let Datum { at: _, node } = self;
        release(node);
    }
}

/// A datum with no data in it.
#[derive(Drop)]
pub enum Atom {
    Boolean(bool),
    Integer(Fix),
    Character(u8),
    Text(Bytes),
    Symbol(Bytes),
}

/// What a datum is. The option of a list is the datum after its dot.
#[derive(Drop)]
#[cycle(datum)]
pub enum Node {
    Atom(Atom),
    List(List<Datum>, Option<Box<Datum>>),
    Vector(List<Datum>),
}
