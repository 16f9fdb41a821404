// Grow along the root's orientation: the last slot of the top chain is stretched if it is Free, else a Free slot is appended to it.
#![tactic(auto)]

ghost use Rattle.std.specs.Prelude.{◌≡◌};
ghost use Rattle.steps.specs.State.{state};
ghost use Rattle.grows.specs.Grows.{grown_along};
ghost use Rattle.along.specs.Ready.{AlongReady};

use slots::NodeKind;
use steps::Head;

// Stretches the last slot of the top chain by a length if it is Free, else appends a Free slot of that length to it.
pub fn grow_along(
    words: &mut [u32],
    generations: &mut [u8],
    small: &mut [u32],
    medium: &mut [u32],
    large: &mut [u32],
    head: Head,
    by: u32,
) -> Head
    requires { AlongReady (state head words.old generations.old small.old medium.old large.old) by }
    ensures { state result words.new generations.new small.new medium.new large.new
        ≡ grown_along (state head words.old generations.old small.old medium.old large.old) by }
{
    let o = table::node_at(words, head.root).orientation;
    let i = stretches::last_of(words, head.count, head.root);
    let last = table::node_at(words, i);
    if last.kind == NodeKind::Free {
        let longer = strips::stretched_rect(o, last.rect, by);
        return growing::stretch(words, small, medium, large, head, i, longer);
    }
    let new = strips::appended_rect(o, last.rect, by);
    growing::append_to(words, generations, small, medium, large, head, i, o, new)
}
