// The calls that are replayed, on a state of our own.
#![tactic(auto)]

use geometry::{AllocatorOptions, Rectangle, Size};
use tickets::AllocId;
use told::State;

// A call that the list tells of: all are done, but for an allocate, whose answer stands on its line, with ticket and rectangle.
#[derive(Clone, Copy)]
pub enum Call {
    Start(Size, AllocatorOptions),
    Allocate {
        size: Size,
        answer: u32,
        id: AllocId,
        rectangle: Rectangle,
    },
    Deallocate(AllocId),
    Grow(Size),
    Clear,
    Reset(Size, AllocatorOptions),
}

// Whether the slot and the generation of a ticket make that ticket.
fn is_rebuilt(id: AllocId) -> bool {
    tickets::alloc_id(tickets::get_index(id), tickets::get_generation(id)) == id
}

// Whether a ticket is live, and its slot and generation make it again.
fn is_ticket(state: &State, id: AllocId) -> bool {
    let rectangle = lookup::index(
        &state.words,
        &state.generations,
        &state.small,
        &state.medium,
        &state.large,
        state.head,
        id,
    );
    rectangle.is_ok() && is_rebuilt(id)
}

// Whether the tables are sound, and the sheet is empty just where that is said.
pub fn is_empty_as_told(state: &State, empty: bool) -> bool {
    let ours = empty::is_empty(
        &state.words,
        &state.generations,
        &state.small,
        &state.medium,
        &state.large,
        state.head,
    );
    ours == Ok(empty)
}

impl Call {
    // Makes the call: whether its answers are those that the list tells of.
    pub fn make(&self, ours: &mut State) -> bool {
        match *self {
            Call::Start(sheet, options) => {
                starts::start(
                    &mut ours.words,
                    &mut ours.generations,
                    &mut ours.small,
                    &mut ours.medium,
                    &mut ours.large,
                    &mut ours.head,
                    sheet,
                    options,
                )
                .is_ok()
            }
            Call::Allocate {
                size,
                answer,
                id,
                rectangle,
            } => {
                let outcome = allocate::allocate(
                    &mut ours.words,
                    &mut ours.generations,
                    &mut ours.small,
                    &mut ours.medium,
                    &mut ours.large,
                    &mut ours.head,
                    size,
                );
                let given = taking::handed_over(outcome);
                refusals::answer_of(outcome) == answer
                    && given.id == id
                    && given.rectangle == rectangle
            }
            Call::Deallocate(id) => {
                let live = is_ticket(ours, id);
                let done = deallocate::deallocate(
                    &mut ours.words,
                    &ours.generations,
                    &mut ours.small,
                    &mut ours.medium,
                    &mut ours.large,
                    &mut ours.head,
                    id,
                );
                live && done.is_ok()
            }
            Call::Grow(size) => {
                grow::grow(
                    &mut ours.words,
                    &mut ours.generations,
                    &mut ours.small,
                    &mut ours.medium,
                    &mut ours.large,
                    &mut ours.head,
                    size,
                )
                .is_ok()
            }
            Call::Clear => {
                starts::clear(
                    &mut ours.words,
                    &mut ours.generations,
                    &mut ours.small,
                    &mut ours.medium,
                    &mut ours.large,
                    &mut ours.head,
                )
                .is_ok()
            }
            Call::Reset(sheet, options) => {
                starts::reset(
                    &mut ours.words,
                    &mut ours.generations,
                    &mut ours.small,
                    &mut ours.medium,
                    &mut ours.large,
                    &mut ours.head,
                    sheet,
                    options,
                )
                .is_ok()
            }
        }
    }
}
