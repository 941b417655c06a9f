//! Where the short jumps stand that have a jump in their spans: for each jump of a text the first of them and the last.

ghost use Rattle.std.specs.Prelude.{◌≡◌, ℕ, ◌+◌, ◌<◌, ◌≤◌, IfOk, false, length, replicate, slice_index, slice_index_or};
ghost use Rattle.sch_jumps.specs.Spans.{AreFirsts, AreLasts, reach};

use sch_word::Mem;
use std::alloc::Global;

/// For each jump the first short jump whose span ends behind it, or the number of all jumps: none before it has the jump
/// in its span. It is at most `reach` jumps before the jump. The time is linear in the number of jumps.
pub fn firsts(alloc: Global, highs: &[usize], longs: &[bool]) -> Result<Vec<usize>, Mem>
    requires highs { length highs.now ≡ length longs.now }
    requires high { (k : ℕ) → k < length longs.now → k + 1 ≤ slice_index highs.now k }
    requires top { (k : ℕ) → k < length longs.now → slice_index highs.now k ≤ length longs.now }
    requires narrow { (k : ℕ) → k < length longs.now → slice_index_or longs.now k false ≡ false → slice_index highs.now k ≤ k + 1 + reach }
    ensures size { IfOk result (λ v. length v.items ≡ length longs.now) }
    ensures firsts { IfOk result (λ v. AreFirsts highs.now longs.now v.items) }
    ensures close { IfOk result (λ v. (j : ℕ) → j < length longs.now → j ≤ slice_index v.items j + reach) }
{
    let mut firsts = filled(alloc, longs.len(), longs.len())?;
    for k in 0..longs.len() {
        if !longs[k] {
            let end = highs[k] - 1;
            firsts[end] = firsts[end].min(k);
        }
    }
    suffix_minima(&mut firsts);
    Ok(firsts)
}

/// For each jump the number behind the last short jump whose span begins at it or before it, or 0: none from there on has
/// the jump in its span. It is at most `reach` jumps behind the jump. The time is linear in the number of jumps.
pub fn lasts(alloc: Global, lows: &[usize], longs: &[bool]) -> Result<Vec<usize>, Mem>
    requires lows { length lows.now ≡ length longs.now }
    requires narrow { (k : ℕ) → k < length longs.now → slice_index_or longs.now k false ≡ false → k + 1 ≤ slice_index lows.now k + reach }
    ensures size { IfOk result (λ v. length v.items ≡ length longs.now) }
    ensures lasts { IfOk result (λ v. AreLasts lows.now longs.now v.items) }
    ensures close { IfOk result (λ v. (j : ℕ) → j < length longs.now → slice_index v.items j ≤ j + reach) }
{
    let mut lasts = filled(alloc, 0, longs.len())?;
    for k in 0..longs.len() {
        if !longs[k] && lows[k] < longs.len() {
            let low = lows[k];
            lasts[low] = lasts[low].max(k + 1);
        }
    }
    prefix_maxima(&mut lasts);
    Ok(lasts)
}

fn filled(alloc: Global, number: usize, count: usize) -> Result<Vec<usize>, Mem>
    ensures { IfOk result (λ v. v.items ≡ replicate count number) }
{
    Ok(vec![in alloc; number; count]?)
}

// Makes each number the least of those from it on.
fn suffix_minima(numbers: &mut Vec<usize>)
    requires close { (i : ℕ) → i < length numbers.old.items → i ≤ slice_index numbers.old.items i + reach }
    ensures size { length numbers.new.items ≡ length numbers.old.items }
    ensures least { (i j : ℕ) → i ≤ j → j < length numbers.old.items → slice_index numbers.new.items i ≤ slice_index numbers.old.items j }
    ensures close { (i : ℕ) → i < length numbers.old.items → i ≤ slice_index numbers.new.items i + reach }
{
    let mut least = numbers.len();
    for i in 0..numbers.len() {
        let at = numbers.len() - 1 - i;
        least = least.min(numbers[at]);
        numbers[at] = least;
    }
}

// Makes each number the greatest of those up to it.
fn prefix_maxima(numbers: &mut Vec<usize>)
    requires close { (i : ℕ) → i < length numbers.old.items → slice_index numbers.old.items i ≤ i + reach }
    ensures size { length numbers.new.items ≡ length numbers.old.items }
    ensures greatest { (i j : ℕ) → i ≤ j → j < length numbers.old.items
        → slice_index numbers.old.items i ≤ slice_index numbers.new.items j }
    ensures close { (i : ℕ) → i < length numbers.old.items → slice_index numbers.new.items i ≤ i + reach }
{
    let mut greatest = 0;
    for i in 0..numbers.len() {
        greatest = greatest.max(numbers[i]);
        numbers[i] = greatest;
    }
}
