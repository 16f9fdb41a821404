// Whether our state is the one that the list tells of, wherever that says anything: below the slot count and the lengths.
#![tactic(auto)]

use buckets::Lengths;
use told::State;

pub fn is_as_told(told: &State, ours: &State) -> bool {
    let n = told.head.count as usize;
    let Lengths {
        small,
        medium,
        large,
    } = told.head.lengths;
    n <= 256
        && small <= 2048
        && medium <= 2048
        && large <= 2048
        && told.head == ours.head
        && told.words[..n * 8] == ours.words[..n * 8]
        && told.generations[..n] == ours.generations[..n]
        && told.small[..small] == ours.small[..small]
        && told.medium[..medium] == ours.medium[..medium]
        && told.large[..large] == ours.large[..large]
}
