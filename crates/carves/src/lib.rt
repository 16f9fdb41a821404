// Allocate in the slot table: the new slots are taken, and written with the chosen slot and its next.
#![tactic(auto)]

ghost use Rattle.std.specs.Prelude.{◌≡◌};
ghost use Rattle.grants.specs.Shapes.{slots_needed};
ghost use Rattle.grants.specs.Carves.{news, news_of, carved};
ghost use Rattle.pairs.specs.Pairs.{CanTake};
ghost use Rattle.carves.specs.Room.{Carvable};

use cuts::Cut;
use geometry::{Orientation, Rectangle};
use grants::{CutSlots, Shape};
use slots::{AllocIndex, NodeKind};
use steps::Head;

// No slots.
const NO_SLOTS: CutSlots = CutSlots {
    split: slots::NONE,
    inner: slots::NONE,
    alloc: slots::NONE,
    left: slots::NONE,
};

// Takes the new slots of a shape in creation order: split, inner Container, Alloc, leftover.
#[tactic(auto, unfolding(grants::specs::Carves::news_of, pairs::specs::Pairs::two_nodes), using(pairs::specs::PairLaws::can_two_more, pairs::specs::PairLaws::can_two, pairs::specs::PairLaws::can_more))]
pub fn take_slots(
    shape: Shape,
    words: &[u32],
    generations: &mut [u8],
    head: &mut Head,
    i: AllocIndex,
) -> CutSlots
    requires { CanTake (slots_needed shape) words.now generations.old head.old }
    ensures { news result head.new generations.new ≡ news_of shape words.now generations.old head.old i }
{
    match shape {
        Shape::Exact => CutSlots {
            alloc: i,
            ..NO_SLOTS
        },
        Shape::Along => CutSlots {
            split: steps::new_node(words, generations, head),
            alloc: i,
            ..NO_SLOTS
        },
        Shape::AlongLeft => {
            let split = steps::new_node(words, generations, head);
            let t = pairs::take_two(words, generations, head);
            CutSlots {
                split,
                alloc: t.first,
                left: t.second,
                ..NO_SLOTS
            }
        }
        Shape::Across => {
            let t = pairs::take_two(words, generations, head);
            CutSlots {
                split: t.first,
                alloc: t.second,
                ..NO_SLOTS
            }
        }
        Shape::AcrossLeft => {
            let t = pairs::take_two(words, generations, head);
            let u = pairs::take_two(words, generations, head);
            CutSlots {
                split: t.first,
                inner: t.second,
                alloc: u.first,
                left: u.second,
            }
        }
    }
}

// Writes the slots of a cut: slot i is chosen, and the request lies at rect.
#[tactic(auto, unfolding(grants::specs::Carves::carved))]
pub fn carve(
    shape: Shape,
    words: &mut [u32],
    i: AllocIndex,
    new: CutSlots,
    rect: Rectangle,
    cut: Cut,
)
    requires { Carvable shape words.old i new }
    ensures { words.new ≡ carved shape words.old i new rect cut }
{
    let o = table::node_at(words, i).orientation;
    let over = geometry::flipped(o);
    match shape {
        Shape::Exact => beside::turn(words, i, rect),
        Shape::Along => {
            beside::split_beside(words, i, new.split, cut.split);
            beside::turn(words, i, rect);
        }
        Shape::AlongLeft => {
            beside::split_beside(words, i, new.split, cut.split);
            stores::set_kind(words, i, NodeKind::Container);
            pairs::put_pair(
                words,
                i,
                over,
                new.alloc,
                NodeKind::Alloc,
                rect,
                new.left,
                cut.leftover,
            );
        }
        Shape::Across => {
            stores::set_kind(words, i, NodeKind::Container);
            pairs::put_pair(
                words,
                i,
                over,
                new.alloc,
                NodeKind::Alloc,
                rect,
                new.split,
                cut.split,
            );
        }
        Shape::AcrossLeft => {
            stores::set_kind(words, i, NodeKind::Container);
            pairs::put_pair(
                words,
                i,
                over,
                new.inner,
                NodeKind::Container,
                geometry::no_rect(),
                new.split,
                cut.split,
            );
            pairs::put_pair(
                words,
                new.inner,
                o,
                new.alloc,
                NodeKind::Alloc,
                rect,
                new.left,
                cut.leftover,
            );
        }
    }
}
