// The table of first children.
#![tactic(auto)]

ghost use Rattle.std.specs.Prelude.{◌≡◌, ◌≤◌, ◌<◌, length};
ghost use Rattle.links.specs.Links.{is_first, entered, firsts_to, Table};

use slots::{AllocIndex, NodeKind};

// Whether slot i is a first child: live, with a parent below n and no prev.
#[tactic(auto, unfolding(links::specs::Links::is_first))]
fn is_first(words: &[u32], n: u32, i: AllocIndex) -> bool
    requires { Table words.now n × (i.0 < n) }
    ensures { result ≡ is_first words.now n i.0 }
{
    let node = table::node_at(words, i);
    node.kind != NodeKind::Unused && slots::is_none(node.prev) && node.parent.0 < n
}

// Enters slot i at its parent, if it is a first child.
#[tactic(auto, using(links::proofs::TurnLaws::first_parent), unfolding(links::specs::Links::entered))]
fn enter(words: &[u32], firsts: &mut [u32], n: u32, i: AllocIndex)
    requires { Table words.now n × (i.0 < n) × (n ≤ length firsts.old) }
    ensures { firsts.new ≡ entered words.now n i.0 firsts.old }
{
    if is_first(words, n, i) {
        let node = table::node_at(words, i);
        firsts[node.parent.0 as usize] = i.0;
    }
}

// Enters every first child at its parent.
#[tactic(auto, using(links::proofs::TurnLaws::firsts_more), unfolding(links::specs::Links::firsts_to))]
pub fn enter_firsts(words: &[u32], firsts: &mut [u32], n: u32)
    requires { Table words.now n × (n ≤ length firsts.old) }
    ensures { firsts.new ≡ firsts_to words.now n n firsts.old }
{
    for i in 0..n {
        enter(words, firsts, n, AllocIndex(i));
    }
}
