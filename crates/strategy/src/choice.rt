// 10: is each chosen label a candidate? (document 01)
ghost use Rattle.std.specs.Prelude.{◌≡◌, ℕ, ◌+◌, ◌*◌, ◌≤◌, ◌<◌, length, get_or};
ghost use Rattle.entries.specs.First.{first};
ghost use Rattle.strategy.specs.Inside.Checks.{is_stranger};

use entries::decided::first_decided;
use paper::Label;
use rows::form::{Form, form_of};

// Whether the k-th chosen label is no candidate.
fn is_stranger(rows: &[u16], chosen: &[u16], k: usize) -> bool
    requires { (k < length chosen.now) × (4 * get_or chosen.now k 0 + 4 ≤ length rows.now) }
    ensures { result ≡ is_stranger rows.now chosen.now k }
{
    match form_of(rows, Label(chosen[k])) {
        Form::Candidate => false,
        _ => true,
    }
}

// The index of the first chosen label that is no candidate, or how many there are, as `first` has it.
pub fn first_stranger(rows: &[u16], chosen: &[u16]) -> usize
    requires { (k : ℕ) → k < length chosen.now → 4 * get_or chosen.now k 0 + 4 ≤ length rows.now }
    ensures { result ≡ first (is_stranger rows.now chosen.now) (length chosen.now) }
{
    first_decided(chosen.len(), |k| is_stranger(rows, chosen, k))
}
