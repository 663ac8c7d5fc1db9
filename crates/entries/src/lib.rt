// Entries, one word each: the lowest that is not above the one before, or that is beyond a limit (refusals 4, 5 and 9, and a
// star's reads in 6). A search gives its n where there is none, as `first` does; n stands apart from the words, since any may follow them.
#![tactic(auto)]

pub mod decided; // the search of the functions here and of the layers above, by a test that has one answer at each number
#[cfg(test)]
mod tests; // the search by any test

ghost use Rattle.std.specs.Prelude.{◌≡◌, ℕ, ◌≤◌, ◌<◌, ◌||◌, length};
ghost use Rattle.entries.specs.First.{first};
ghost use Rattle.entries.specs.Inside.Asked.{FirstAsked};
ghost use Rattle.entries.specs.Entries.{falls, ascend, beyond};

use decided::first_decided;
use paper::{Label, Variable};

// The lowest k below n with `is_bad(k)`, or n. The test is any: where it may answer a number in two ways, as its contract goes, there may
// be two finds. It has a body of its own, since `first_decided` takes no such test.
pub fn first_where<F: Fn(usize) -> bool>(n: usize, is_bad: F) -> usize
    requires { (k : ℕ) → k < n → F.pre is_bad k }
    ensures { FirstAsked (F.post is_bad) n result }
{
    for k in 0..n {
        if is_bad(k) {
            return k;
        }
    }
    n
}

// The lowest of n words that is not above the one before, or n.
pub fn first_fall(words: &[u16], n: usize) -> usize
    requires { n ≤ length words.now }
    ensures { result ≡ first (falls words.now) n }
{
    first_decided(n, |k| 0 < k && words[k] <= words[k - 1])
}

// Whether the first m words are there, and strictly ascend.
pub fn are_ascending(words: &[u16], m: usize) -> bool
    ensures { result ≡ ascend words.now m }
{
    if words.len() < m {
        return false;
    }
    first_fall(words, m) == m
}

// The lowest of n entries that is no variable below `variables`, or n.
pub fn first_beyond(entries: &[u16], n: usize, variables: usize) -> usize
    requires { n ≤ length entries.now }
    ensures { result ≡ first (beyond entries.now variables) n }
{
    first_decided(n, |k| {
        let v = Variable(entries[k]);
        variables <= usize::from(v.0)
    })
}

// The lowest of n entries of a strategy that is no label below `rows`, or not above the one before, or n.
pub fn first_unfit(entries: &[u16], n: usize, rows: usize) -> usize
    requires { n ≤ length entries.now }
    ensures { result ≡ first (λ k. beyond entries.now rows k || falls entries.now k) n }
{
    first_decided(n, |k| {
        let l = Label(entries[k]);
        rows <= usize::from(l.0) || (0 < k && l.0 <= entries[k - 1])
    })
}
