// Grow across the root's orientation: a Free slot is taken, then a new zero-rectangle root over the old top chain.
#![tactic(auto)]

ghost use Rattle.std.specs.Prelude.{◌≡◌};
ghost use Rattle.pairs.specs.Pairs.{two, two_nodes};
ghost use Rattle.steps.specs.State.{state};
ghost use Rattle.grows.specs.Grows.{grown_across};
ghost use Rattle.across.specs.Ready.{crossed, RootReady, AcrossReady};

use geometry::Rectangle;
use pairs::Two;
use slots::{AllocIndex, NodeKind};
use steps::Head;

// Takes a Free slot with a rectangle, then a new root before it, over the old top chain.
fn new_root(words: &mut [u32], generations: &mut [u8], head: &mut Head, rect: Rectangle) -> Two
    requires { RootReady words.old generations.old head.old }
    ensures { (two result.first result.second head.new generations.new ≡ two_nodes words.old generations.old head.old)
        × (words.new ≡ crossed words.old head.old result.second result.first rect) }
{
    let before = *head;
    let o = table::node_at(words, before.root).orientation;
    let over = geometry::flipped(o);
    let new = pairs::take_two(words, generations, head);
    let zero = geometry::no_rect();
    pairs::put_pair(
        words,
        slots::NONE,
        over,
        new.second,
        NodeKind::Container,
        zero,
        new.first,
        rect,
    );
    stretches::reparent(words, before.count, new.second, before.root);
    new
}

// A new root over the old top chain, and after it a Free slot with a rectangle.
pub fn grow_across(
    words: &mut [u32],
    generations: &mut [u8],
    small: &mut [u32],
    medium: &mut [u32],
    large: &mut [u32],
    head: Head,
    rect: Rectangle,
) -> Head
    requires { AcrossReady (state head words.old generations.old small.old medium.old large.old) rect }
    ensures { state result words.new generations.new small.new medium.new large.new
        ≡ grown_across (state head words.old generations.old small.old medium.old large.old) rect }
{
    let setup = geometry::setup_of(head.sheet, head.options);
    let mut after = head;
    let taken = new_root(words, generations, &mut after, rect);
    let lengths = entries::add_free_rect(
        words,
        small,
        medium,
        large,
        head.lengths,
        setup,
        taken.first,
        rect,
    );
    Head {
        root: taken.second,
        lengths,
        ..after
    }
}
