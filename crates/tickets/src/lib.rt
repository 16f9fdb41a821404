// Tickets: a slot and its generation in one number.
#![tactic(auto)]

ghost use Rattle.std.specs.Prelude.{◌≡◌, ◌<◌};
ghost use Rattle.tickets.specs.Tickets.{ticket_of, slot_of, generation_of};

use slots::AllocIndex;

// A ticket: what a caller holds for an allocated rectangle.
#[derive(Clone, Copy, PartialEq, Eq)]
pub struct AllocId(pub u32);

// The ticket of a slot with its generation.
pub fn alloc_id(i: AllocIndex, generation: u8) -> AllocId
    requires { i.0 < 16777216 }
    ensures { result ≡ ticket_of i generation }
{
    AllocId(i.0 + u32::from(generation) * 16777216)
}

// The slot that a ticket names.
pub fn get_index(id: AllocId) -> AllocIndex
    ensures { result ≡ slot_of id }
{
    AllocIndex(id.0 % 16777216)
}

// The generation that a ticket names.
pub fn get_generation(id: AllocId) -> u8
    ensures { result ≡ generation_of id }
{
    (id.0 / 16777216) as u8
}
