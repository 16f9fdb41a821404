// The last words of rule 1, of one list: whether its entries are below n, and the lowest that is not.
#![tactic(auto)]

ghost use Rattle.std.specs.Prelude.{◌≡◌, true, ◌≤◌, ◌<◌, length};
ghost use Rattle.lists.specs.Lists.{bag, Each};
ghost use Rattle.below.specs.Below.{first_bad, entry_below};

// Whether every entry of a list is below n. It looks at all of them, whatever it finds, and finds no place.
pub fn all_below(list: &[u32], len: usize, n: u32) -> bool
    requires { len ≤ length list.now }
    ensures { result ≡ true → Each (λ x. x < n) (bag list.now len) }
{
    let mut all = true;
    for x in &list[..len] {
        all &= *x < n;
    }
    all
}

// The lowest place of a list whose entry isn't below n, if there is one.
pub fn lowest_entry(list: &[u32], len: usize, n: u32) -> Option<usize>
    requires { len ≤ length list.now }
    ensures { result ≡ first_bad (entry_below list.now n) len }
{
    list[..len].iter().position(|x| *x >= n)
}
