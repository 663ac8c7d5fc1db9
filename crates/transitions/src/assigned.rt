// The assignments of a transition: the chosen labels that it keeps, in the order that they are given in.
ghost use Rattle.std.specs.Prelude.{◌≡◌, ◌++◌, length, take, drop};
ghost use Rattle.marks.specs.Inside.Chosen.{AllBelow};
ghost use Rattle.transitions.specs.Inside.Assigned.{kept_of, Fillable};

use marks::is_marked;
use paper::Label;

// How many of some labels are kept.
pub fn count_kept(labels: &[u16], kept: &[u8]) -> usize
    requires { AllBelow (length kept.now) labels.now }
    ensures { result ≡ length (kept_of kept.now labels.now) }
{
    labels
        .iter()
        .filter(|l| is_marked(kept, Label(**l)))
        .count()
}

// Puts those of the first `count` labels that are kept at the front of a slice, in their order; gives how many they are. `count` stands
// apart: what follows the order may be anything.
pub fn fill_assigned(order: &[u16], count: usize, kept: &[u8], out: &mut [u16]) -> usize
    requires { Fillable order.now count kept.now out.old }
    ensures filled { result ≡ length (kept_of kept.now (take count order.now)) }
    ensures after { out.new ≡ kept_of kept.now (take count order.now) ++ drop result out.old }
{
    let mut filled = 0;
    for &label in &order[..count] {
        if is_marked(kept, Label(label)) {
            out[filled] = label;
            filled += 1;
        }
    }
    filled
}
