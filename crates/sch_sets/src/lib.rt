//! Sets of small numbers, such as the variables of a body: a bit for each number. No call takes memory.
#![tactic(auto)]

ghost use Rattle.std.specs.Prelude.{◌≡◌, ◌*◌, ◌+◌, ◌<◌, ◌≤◌, ◌&&◌, ◌↔◌, ℕ, IsTrue, MatchOption, nat_eq, nat_le};
ghost use Rattle.std.specs.Bool.{OnFalse};
ghost use Rattle.std.specs.Int.{bit_at};
ghost use Rattle.std.specs.FinSet as set;
ghost use Rattle.sch_sets.specs.Members.{HasMember, HasNone, IsBelow, IsFirst};

use std::marker::Model;

/// A set of numbers below 64 `N`. Number v is bit v % 64 of word v / 64.
#[derive(Drop)]
pub struct Set<const N: usize> {
    words: [u64; N],
}

// The bits of a word from one on.
fn bits_from(word: u64, bit: u32) -> u64
    requires { bit < 64 }
    ensures { (k : ℕ) → k < 64 → nat_eq (bit_at result k) 1 ≡ (nat_le bit k && nat_eq (bit_at word k) 1) }
{
    word & !((1 << bit) - 1)
}

impl<const N: usize> Model for Set<N> {
    ghost use Rattle.std.specs.Ordering.{nat_cmp};
    ghost use Rattle.std.specs.FinSet as set;
    ghost use Rattle.std.specs.Coded.{coded_ℕ};
    ghost use Rattle.sch_sets.specs.Members.{numbers_in};

    ghost Value = { set.FinSet nat_cmp };

    ghost coded = { set.code coded_ℕ };

    ghost view = { λ s. numbers_in s.words };
}

impl<const N: usize> Set<N> {
    /// The empty set.
    pub fn new() -> Set<N>
        ensures { result ≡ set.empty }
    {
        Set { words: [0; N] }
    }

    /// The same set once more.
    pub fn copy(&self) -> Set<N>
        ensures { result ≡ self.now }
    {
        Set { words: self.words }
    }

    /// Puts a number in. One that is there stays.
    pub fn insert(&mut self, v: u32)
        requires { v < 64 * N }
        ensures { self.new ≡ set.insert self.old v }
    {
        self.words[v as usize / 64] |= 1 << (v % 64);
    }

    /// Takes a number out, if it is there.
    pub fn remove(&mut self, v: u32)
        requires { v < 64 * N }
        ensures { self.new ≡ set.remove self.old v }
    {
        self.words[v as usize / 64] &= !(1 << (v % 64));
    }

    /// Whether a number is in the set.
    pub fn contains(&self, v: u32) -> bool
        requires { v < 64 * N }
        ensures { result ≡ set.contains self.now v }
    {
        self.words[v as usize / 64] >> (v % 64) & 1 == 1
    }

    /// The numbers that are in this set, in the other one, or in both.
    pub fn union(&self, other: &Set<N>) -> Set<N>
        ensures { result ≡ set.union self.now other.now }
    {
        let mut words = [0; N];
        'words: for i in 0..N {
            words[i] = self.words[i] | other.words[i];
        }
        Set { words }
    }

    /// The numbers that are in both sets.
    pub fn meet(&self, other: &Set<N>) -> Set<N>
        ensures { result ≡ set.intersection self.now other.now }
    {
        let mut words = [0; N];
        'words: for i in 0..N {
            words[i] = self.words[i] & other.words[i];
        }
        Set { words }
    }

    /// The numbers that are in this set and not in the other one.
    pub fn minus(&self, other: &Set<N>) -> Set<N>
        ensures { result ≡ set.difference self.now other.now }
    {
        let mut words = [0; N];
        'words: for i in 0..N {
            words[i] = self.words[i] & !other.words[i];
        }
        Set { words }
    }

    /// Whether no number is in the set.
    pub fn is_empty(&self) -> bool
        ensures empty { IsTrue result ↔ (self.now ≡ set.empty) }
        ensures member { OnFalse result (HasMember self.now) }
    {
        'words: for i in 0..N {
            if self.words[i] != 0 {
                return false;
            }
        }
        true
    }

    // The bits of a word that stand for members from one on.
    fn members_in_word(&self, word: u32, from: u32) -> u64
        requires within { word < N }
        ensures { (k : ℕ) → k < 64
            → nat_eq (bit_at result k) 1 ≡ (nat_le from (64 * word + k) && set.contains self.now (64 * word + k)) }
    {
        if word > from / 64 {
            self.words[word as usize]
        } else if word == from / 64 {
            bits_from(self.words[word as usize], from % 64)
        } else {
            0
        }
    }

    /// The first member from `from` on, if it is below `end`. Words without members are passed over, so that a walk over all
    /// members takes as many steps as there are words and members.
    pub fn next(&self, from: u32, end: u32) -> Option<u32>
        requires { end ≤ 64 * N }
        ensures { MatchOption result (HasNone from end self.now) (λ v. IsFirst from end self.now v) }
    {
        'words: for i in from / 64..end.div_ceil(64) {
            let word = self.members_in_word(i, from);
            if word != 0 {
                let v = 64 * i + word.trailing_zeros();
                return if v < end { Some(v) } else { None };
            }
        }
        None
    }

    /// Each member is below 64 `N`: a law, which costs nothing when it runs.
    pub fn members_are_below(&self)
        ensures { IsBelow (64 * N) self.now }
    {
        let _ = &self.words;
    }
}
