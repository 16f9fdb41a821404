// Start, clear and reset.
#![tactic(auto)]

ghost use Rattle.std.specs.Prelude.{◌≡◌};
ghost use Rattle.steps.specs.State.{state};
ghost use Rattle.outcomes.specs.Given.{nothing, given};
ghost use Rattle.refusals.specs.Refusals.{answer_of};
ghost use Rattle.starts.specs.Starts.{start_call, clear_call};

use geometry::{AllocatorOptions, Size};
use refusals::Refusal;
use steps::Head;

// A new sheet, whatever the tables held. 1: a table length is out of range; 3: the setup is invalid; both change nothing.
pub fn start(
    words: &mut [u32],
    generations: &mut [u8],
    small: &mut [u32],
    medium: &mut [u32],
    large: &mut [u32],
    head: &mut Head,
    sheet: Size,
    options: AllocatorOptions,
) -> Result<(), Refusal>
    ensures { given (answer_of result) nothing (state head.new words.new generations.new small.new medium.new large.new)
        ≡ start_call sheet options (state head.old words.old generations.old small.old medium.old large.old) }
{
    if !lent::is_lent(
        words.len(),
        generations.len(),
        small.len(),
        medium.len(),
        large.len(),
    ) {
        return Err(Refusal::TableLength);
    }
    if !geometry::is_valid(sheet, options) {
        return Err(Refusal::Setup);
    }
    *head = sheets::begin(words, generations, small, medium, large, sheet, options);
    Ok(())
}

// The same sheet again, with the size and the options given.
pub fn reset(
    words: &mut [u32],
    generations: &mut [u8],
    small: &mut [u32],
    medium: &mut [u32],
    large: &mut [u32],
    head: &mut Head,
    sheet: Size,
    options: AllocatorOptions,
) -> Result<(), Refusal>
    ensures { given (answer_of result) nothing (state head.new words.new generations.new small.new medium.new large.new)
        ≡ start_call sheet options (state head.old words.old generations.old small.old medium.old large.old) }
{
    start(
        words,
        generations,
        small,
        medium,
        large,
        head,
        sheet,
        options,
    )
}

// The same sheet again, empty.
pub fn clear(
    words: &mut [u32],
    generations: &mut [u8],
    small: &mut [u32],
    medium: &mut [u32],
    large: &mut [u32],
    head: &mut Head,
) -> Result<(), Refusal>
    ensures { given (answer_of result) nothing (state head.new words.new generations.new small.new medium.new large.new)
        ≡ clear_call (state head.old words.old generations.old small.old medium.old large.old) }
{
    let Head { sheet, options, .. } = *head;
    start(
        words,
        generations,
        small,
        medium,
        large,
        head,
        sheet,
        options,
    )
}
