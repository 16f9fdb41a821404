// What a call is refused with.
#![tactic(auto)]

ghost use Rattle.std.specs.Prelude.{◌≡◌};
ghost use Rattle.refusals.specs.Refusals.{number_of, answer_of};

// The refusals of the paper's list, by its numbers.
#[derive(Clone, Copy, Debug, PartialEq, Eq)]
pub enum Refusal {
    // A table length is out of range.
    TableLength = 1,
    // The tables are not sound.
    NotSound = 2,
    // The setup is invalid: a side, the alignment or the thresholds.
    Setup = 3,
    // A requested side is 0 or less.
    NotPositive = 4,
    // A side rounded up is too large.
    TooLarge = 5,
    // No Free rectangle is as wide and as tall as the rounded request.
    NoSpace = 6,
    // Fewer slots are spare than the call needs.
    NoSlots = 7,
    // The ticket's slot is not below n.
    NoSuchSlot = 8,
    // The ticket's generation differs.
    Generation = 9,
    // The ticket's slot is not Alloc.
    NotAlloc = 10,
    // A side to grow to is smaller than now.
    Smaller = 11,
    // The lent list is shorter than the listing.
    ListLength = 12,
}

// The number of a refusal.
pub fn number_of(refusal: Refusal) -> u32
    ensures { result ≡ number_of refusal }
{
    refusal as u32
}

// What a call answers: 0 where it is done, else the number of its refusal.
pub fn answer_of<T: Copy>(outcome: Result<T, Refusal>) -> u32
    ensures { result ≡ answer_of outcome }
{
    match outcome {
        Ok(_) => 0,
        Err(refusal) => number_of(refusal),
    }
}
