// Slots in one flat lent table, eight words to a slot, and how they are fetched.
#![tactic(auto)]

ghost use Rattle.std.specs.Prelude.{◌≡◌, ◌<◌};
ghost use Rattle.table.specs.Table.{HasSlot, word, node_at};

use geometry::Rectangle;
use slots::{AllocIndex, Node};

// Word f of slot i.
#[tactic(auto, unfolding(crate::specs::Table::word))]
pub fn word_at(words: &[u32], i: AllocIndex, f: usize) -> u32
    requires { HasSlot words.now i × (f < 8) }
    ensures { result ≡ word words.now i f }
{
    words[i.0 as usize * 8 + f]
}

// Fetches slot i.
#[tactic(auto, unfolding(crate::specs::Table::node_at))]
pub fn node_at(words: &[u32], i: AllocIndex) -> Node
    requires { HasSlot words.now i }
    ensures { result ≡ node_at words.now i }
{
    let code = word_at(words, i, 3);
    Node {
        parent: AllocIndex(word_at(words, i, 0)),
        next: AllocIndex(word_at(words, i, 1)),
        prev: AllocIndex(word_at(words, i, 2)),
        kind: slots::kind_of(code),
        orientation: slots::orientation_of(code),
        rect: Rectangle {
            x0: word_at(words, i, 4),
            y0: word_at(words, i, 5),
            x1: word_at(words, i, 6),
            y1: word_at(words, i, 7),
        },
    }
}
