// The calls of a day.
use geometry::{AllocatorOptions, Size};

// A call of a day, or a look at the tables.
#[derive(Clone, Copy)]
pub enum Order {
    Start(Size, AllocatorOptions),
    Take(i32, i32),
    Free(u32),
    Grow(Size),
    Look,
}
