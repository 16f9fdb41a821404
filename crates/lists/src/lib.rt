// A list in a lent table, of which the first places are filled: append, swap-remove and first occurrence.
#![tactic(auto)]

ghost use Rattle.std.specs.Prelude.{◌≡◌, ◌==◌, ◌≤◌, ◌<◌, length, position};
ghost use Rattle.lists.specs.Lists.{bag, appended, removed, first_of};

pub fn append(list: &mut [u32], len: usize, v: u32) -> usize
    requires { len < length list.old }
    ensures { bag list.new result ≡ appended (bag list.old len) v }
{
    list[len] = v;
    len + 1
}

// Takes entry k out: the last entry goes there, and the old last place stays as it was.
pub fn swap_remove(list: &mut [u32], len: usize, k: usize) -> usize
    requires { (k < len) × (len ≤ length list.old) }
    ensures { bag list.new result ≡ removed (bag list.old len) k }
{
    let last = len - 1;
    list[k] = list[last];
    last
}

// The first place of a slice that holds v.
fn place_of(list: &[u32], v: u32) -> Option<usize>
    ensures { result ≡ position (λ x. x == v) list.now }
{
    list.iter().position(|x| *x == v)
}

// The first place that holds v.
pub fn first_of(list: &[u32], len: usize, v: u32) -> Option<usize>
    requires { len ≤ length list.now }
    ensures { result ≡ first_of list.now v 0 len }
{
    place_of(&list[..len], v)
}
