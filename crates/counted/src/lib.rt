// Rule 1: whether it holds, and the lowest list entry that breaks it.
#![tactic(auto)]

ghost use Rattle.std.specs.Prelude.{◌≡◌, ◌≤◌, length};
ghost use Rattle.lists.specs.Lists.{bag};
ghost use Rattle.buckets.specs.FreeLists.{lists};
ghost use Rattle.judged.specs.Verdicts.{verdict, verdict_of};
ghost use Rattle.counted.specs.Numbers.{numbers_hold, entry_found, entries_found, EntriesReady};

use buckets::Lengths;
use judged::{Broken, Rule};
use steps::Head;

// Rule 1 without its last words: count, setup, list lengths and root are in order.
#[tactic(auto, unfolding(crate::specs::Numbers::numbers_hold))]
pub fn numbers_hold(total: usize, small: usize, medium: usize, large: usize, head: Head) -> bool
    ensures { result ≡ numbers_hold total small medium large head }
{
    head.count != 0
        && head.count as usize <= total
        && head.lengths.small <= small
        && head.lengths.medium <= medium
        && head.lengths.large <= large
        && geometry::is_valid(head.sheet, head.options)
        && head.root.0 < head.count
}

// Rule 1 broken at the lowest entry of a list that isn't below n, if there is one.
#[tactic(auto, unfolding(crate::specs::Numbers::entry_found))]
fn entry_found(list: &[u32], len: usize, n: u32) -> Result<(), Broken>
    requires { (len ≤ length list.now) × (len ≤ 16384) }
    ensures { verdict_of result ≡ entry_found (bag list.now len) n (verdict 0 0) }
{
    if below::all_below(list, len, n) {
        return Ok(());
    }
    match below::lowest_entry(list, len, n) {
        Some(k) => Err(Broken {
            rule: Rule::Numbers,
            place: k as u32,
        }),
        None => Ok(()),
    }
}

// The last words of rule 1: every list entry is below n.
pub fn entries_found(
    small: &[u32],
    medium: &[u32],
    large: &[u32],
    lengths: Lengths,
    n: u32,
) -> Result<(), Broken>
    requires { EntriesReady (lists lengths small.now medium.now large.now) }
    ensures { verdict_of result ≡ entries_found (lists lengths small.now medium.now large.now) n }
{
    entry_found(small, lengths.small, n)?;
    entry_found(medium, lengths.medium, n)?;
    entry_found(large, lengths.large, n)
}
