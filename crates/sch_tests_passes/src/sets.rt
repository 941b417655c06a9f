//! Sets of numbers, at the sizes that bodies use.

ghost use Rattle.std.specs.Prelude.{◌*◌, ◌<◌, ◌≤◌};

use sch_sets::Set;

// Whether a set that 0 and a number above it were put into, and taken out of, holds just them.
fn holds_numbers<const N: usize>(number: u32) -> bool
    requires small { N ≤ 1024 }
    requires above { 0 < number }
    requires within { number < 64 * N }
{
    let mut low = Set::<N>::new();
    low.insert(0);
    let mut both = low.copy();
    both.insert(number);
    let high = both.minus(&low);
    let parted = high.contains(number) & !high.contains(0) & low.meet(&high).is_empty();
    let joined = low.union(&high);
    joined.members_are_below();
    let whole = joined.contains(number) & joined.contains(0);
    both.remove(number);
    parted & whole & !both.contains(number)
}

#[test]
fn sets_hold_numbers_in_each_word(rt: HostRuntime) {
    for number in [1, 31, 32, 63] {
        assert!(rt; holds_numbers::<1>(number));
    }
    for number in [63, 64, 191, 255] {
        assert!(rt; holds_numbers::<4>(number));
    }
    for number in [64, 512, 959, 1023] {
        assert!(rt; holds_numbers::<16>(number));
    }
}
