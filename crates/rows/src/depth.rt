// How deep rows lie: refusal 8. Nested rows are walked by recursion, the depth still allowed falling each time.
ghost use Rattle.std.specs.Prelude.{◌≡◌, ◌+◌, ◌-◌, ◌<◌};
ghost use Rattle.entries.specs.First.{first};
ghost use Rattle.rows.specs.Rows.{end_of, depth_of, is_deep};
ghost use Rattle.rows.specs.Inside.Looks.{Nested};
ghost use Rattle.paper.specs.Limits.{most_depth};

use crate::end_of;
use paper::Label;

// The lowest label in the subtree of the row `at` that is deeper than 64, or the subtree's end. `left` levels are still
// allowed, the row's own among them.
pub fn first_deep(rows: &[u16], n: u16, at: Label, left: u16) -> Label
    requires { Nested rows.now n × (at.0 < n) × (depth_of rows.now at.0 + left ≡ most_depth + 1) }
    ensures { result.0 ≡ at.0 + first (λ k. is_deep rows.now (at.0 + k)) (end_of rows.now at.0 - at.0) }
{
    if left == 0 {
        return at;
    }
    let end = end_of(rows, at);
    let mut k = Label(at.0 + 1);
    // the next child is where this one ends, and no `for` steps so
    while k.0 < end.0 {
        let stop = end_of(rows, k);
        let deep = first_deep(rows, n, k, left - 1);
        if deep.0 < stop.0 {
            return deep;
        }
        k = stop;
    }
    end
}
