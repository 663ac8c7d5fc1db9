// The chosen labels as marks, a byte for each label, for the walks that count.
#![tactic(auto)]

ghost use Rattle.std.specs.Prelude.{◌≡◌, ◌<◌, map, length};
ghost use Rattle.paper.specs.Formula.{ℓ};
ghost use Rattle.marks.specs.Marks.{is_marked};
ghost use Rattle.marks.specs.Inside.Chosen.{MarkedExactly, AllBelow};
ghost use Rattle.paper.specs.Limits.{most_rows};

use paper::Label;
use paper::limits::MOST_ROWS;
use rows::walk::Formula;

// A formula with its chosen labels marked.
#[derive(Clone, Copy)]
pub struct MarkedFormula<'r, 'm> {
    pub formula: Formula<'r>,
    pub marks: &'m [u8; MOST_ROWS],
}

// Whether a label is marked.
#[tactic(auto, unfolding(crate::specs::Marks::is_marked))]
pub fn is_marked(marks: &[u8], at: Label) -> bool
    requires { at.0 < length marks.now }
    ensures { result ≡ is_marked marks.now at.0 }
{
    marks[usize::from(at.0)] == 1
}

// The marks of the chosen labels.
pub fn marks_of(chosen: &[u16]) -> [u8; MOST_ROWS]
    requires { AllBelow most_rows chosen.now }
    ensures { MarkedExactly (map ℓ chosen.now) result }
{
    let mut marks = [0; MOST_ROWS];
    for &label in chosen {
        marks[usize::from(label)] = 1;
    }
    marks
}
