// Rule 3 of one slot: its links are none or name live slots, and it agrees with the slots that they name.
#![tactic(auto)]

ghost use Rattle.std.specs.Prelude.{◌≡◌, ◌≤◌, ◌<◌, length};
ghost use Rattle.links.specs.Links.{live_at, link_at, links_sane, links_at, Table};

use slots::{AllocIndex, Node, NodeKind};

// Whether slot i is live: below n and not Unused.
#[tactic(auto, unfolding(links::specs::Links::live_at))]
pub fn is_live(words: &[u32], n: u32, i: AllocIndex) -> bool
    requires { Table words.now n }
    ensures { result ≡ live_at words.now n i.0 }
{
    i.0 < n && table::node_at(words, i).kind != NodeKind::Unused
}

// Whether a link is none or names a live slot.
#[tactic(auto, unfolding(links::specs::Links::link_at))]
fn is_link(words: &[u32], n: u32, link: AllocIndex) -> bool
    requires { Table words.now n }
    ensures { result ≡ link_at words.now n link }
{
    slots::is_none(link) || is_live(words, n, link)
}

// Every link of a slot is none or names a live slot.
#[tactic(auto, unfolding(links::specs::Links::links_sane))]
fn links_sane(words: &[u32], n: u32, node: Node) -> bool
    requires { Table words.now n }
    ensures { result ≡ links_sane words.now n node }
{
    is_link(words, n, node.parent) && is_link(words, n, node.next) && is_link(words, n, node.prev)
}

// Rule 3 of slot i, but for the sentences that follow links to their end.
#[tactic(auto, unfolding(links::specs::Links::links_at))]
pub fn links_at(words: &[u32], firsts: &[u32], n: u32, root: AllocIndex, i: AllocIndex) -> bool
    requires { Table words.now n × (n ≤ length firsts.now) × (i.0 < n) }
    ensures { result ≡ links_at words.now firsts.now n root.0 i.0 }
{
    if !is_live(words, n, i) {
        return true;
    }
    let node = table::node_at(words, i);
    if !links_sane(words, n, node) {
        return false;
    }
    siblings::siblings_agree(words, i, node)
        && families::family_agrees(words, firsts, root, i, node)
}
