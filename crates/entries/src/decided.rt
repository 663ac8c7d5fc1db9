// A search by a test that has one answer at each number: there is one find, so that the contract of whoever searches can be an equation.
ghost use Rattle.std.specs.Prelude.{ℕ, ◌<◌};
ghost use Rattle.entries.specs.Inside.Asked.{FirstAsked, OneAnswer};

// The lowest k below n with `is_bad(k)`, or n.
pub fn first_decided<F: Fn(usize) -> bool>(n: usize, is_bad: F) -> usize
    requires callable { (k : ℕ) → k < n → F.pre is_bad k }
    requires one_answer { OneAnswer (F.post is_bad) n }
    ensures { FirstAsked (F.post is_bad) n result }
{
    for k in 0..n {
        if is_bad(k) {
            return k;
        }
    }
    n
}
