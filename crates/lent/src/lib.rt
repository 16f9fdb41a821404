// The lengths of the lent tables.
#![tactic(auto)]

ghost use Rattle.std.specs.Prelude.{◌≡◌};
ghost use Rattle.lent.specs.Lent.{list_length, lent_lengths};

// Whether a list table may have this length beside so many slots.
#[tactic(auto, unfolding(crate::specs::Lent::list_length))]
fn is_list_length(slots: usize, entries: usize) -> bool
    ensures { result ≡ list_length slots entries }
{
    slots <= entries && entries <= 16384
}

// Whether the lent tables have lengths in range.
#[tactic(auto, unfolding(crate::specs::Lent::lent_lengths))]
pub fn is_lent(words: usize, slots: usize, small: usize, medium: usize, large: usize) -> bool
    ensures { result ≡ lent_lengths words slots small medium large }
{
    slots != 0
        && slots <= 4096
        && words == slots * 8
        && is_list_length(slots, small)
        && is_list_length(slots, medium)
        && is_list_length(slots, large)
}
