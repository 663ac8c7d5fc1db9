// What the branches of a formula have of each variable, counted by a walk over the rows, 64 variables at a time: refusals 11
// and 12.
#![tactic(auto)]

ghost use Rattle.std.specs.Prelude.{◌≡◌, true, false, ◌≤◌, ◌<◌};
ghost use Rattle.entries.specs.First.{first};
ghost use Rattle.cover.specs.Inside.Masks.{leaf_masks, join_masks, masks_fold, masks_in, bit_at, refusal_of, covering_of};

use marks::{MarkedFormula, is_marked};
use paper::limits::{MOST_DEPTH, MOST_ROWS};
use paper::refusals::{Fault, refusal_for};
use paper::{Label, Refusal, Variable};
use rows::walk::Folding;

// Over the branches of a formula that has some, for 64 variables at a time: bit b of `always` if each branch has a chosen
// candidate of variable 64 * block + b, of `ever` if some has one, of `twice` if some has two or more.
#[derive(Clone, Copy)]
pub struct Masks {
    pub always: u64,
    pub ever: u64,
    pub twice: u64,
}

// A variable without exactly one chosen label on each branch.
#[derive(Clone, Copy)]
pub enum Uncovered {
    // some branch has none
    Missed(Variable),
    // some branch has two or more
    Doubled(Variable),
}

impl From<Uncovered> for Refusal {
    ghost from_gives = { λ x r. r ≡ refusal_of x };

    fn from(x: Uncovered) -> Refusal {
        match x {
            Uncovered::Missed(v) => refusal_for(Fault::VariableMissed, usize::from(v.0)),
            Uncovered::Doubled(v) => refusal_for(Fault::VariableTwice, usize::from(v.0)),
        }
    }
}

// One branch, with a chosen candidate of each variable of a mask.
fn one_branch(mask: u64) -> Option<Masks>
    ensures { result ≡ leaf_masks mask }
{
    Some(Masks {
        always: mask,
        ever: mask,
        twice: 0,
    })
}

// The branches of a conjunction of two: one of the one with one of the other.
#[tactic(auto, unfolding(crate::specs::Inside::Masks::join_masks))]
fn masks_of_both(a: Option<Masks>, b: Option<Masks>) -> Option<Masks>
    ensures { result ≡ join_masks true a b }
{
    let (a, b) = (a?, b?);
    Some(Masks {
        always: a.always | b.always,
        ever: a.ever | b.ever,
        twice: a.twice | b.twice | a.ever & b.ever,
    })
}

// The branches of a disjunction of two: those of the one and those of the other.
#[tactic(auto, unfolding(crate::specs::Inside::Masks::join_masks))]
fn masks_of_either(a: Option<Masks>, b: Option<Masks>) -> Option<Masks>
    ensures { result ≡ join_masks false a b }
{
    let Some(a) = a else { return b };
    let Some(b) = b else { return Some(a) };
    Some(Masks {
        always: a.always & b.always,
        ever: a.ever | b.ever,
        twice: a.twice | b.twice,
    })
}

// The walk for the variables of a block; `None` where there is no branch.
#[derive(Drop)]
struct Block<'a> {
    marks: &'a [u8; MOST_ROWS],
    block: u16,
}

#[tactic(auto, unfolding(crate::specs::Inside::Masks::unit_masks, crate::specs::Inside::Masks::mask_of))]
impl Folding for Block<'_> {
    type Value = Option<Masks>;

    ghost fold = { λ walk. masks_fold walk.marks.now walk.block };

    fn at_leaf(&self, _at: Label) -> Option<Masks> {
        one_branch(0)
    }

    // the bit of the variable, if the candidate is chosen and its variable is of the block
    fn at_candidate(&self, at: Label, v: Variable) -> Option<Masks> {
        let marks = self.marks;
        if v.0 / 64 == self.block && is_marked(marks, at) {
            let bit = 1u64 << (v.0 % 64);
            return one_branch(bit);
        }
        one_branch(0)
    }

    // a conjunction starts from one branch with nothing on it, any other join from no branch
    fn unit(&self, conj: bool) -> Option<Masks> {
        if conj { one_branch(0) } else { None }
    }

    fn join(&self, conj: bool, a: Option<Masks>, b: Option<Masks>) -> Option<Masks> {
        if conj {
            masks_of_both(a, b)
        } else {
            masks_of_either(a, b)
        }
    }
}

// What there is of the variables of a block. Where there is no branch, each has all.
fn masks_of(f: &MarkedFormula, block: u16) -> Masks
    requires { 0 < f.now.formula.n }
    ensures { result ≡ masks_in f.now.formula.rows.now f.now.marks.now block }
{
    let marks = f.marks;
    let walk = Block { marks, block };
    f.formula
        .value_of(&walk, Label(0), MOST_DEPTH)
        .unwrap_or(Masks {
            always: u64::MAX,
            ever: 0,
            twice: 0,
        })
}

// The lowest bit set of the m lowest, or m, as `first` has it.
fn lowest_bit(w: u64, m: u16) -> u16
    requires { m ≤ 64 }
    ensures { result ≡ first (bit_at w) m }
{
    (w.trailing_zeros() as u16).min(m)
}

// The lowest variable with no chosen label on some branch, else the lowest with two or more on some branch.
pub fn covering_of(f: &MarkedFormula, variables: u16) -> Result<(), Uncovered>
    requires { 0 < f.now.formula.n }
    ensures { result ≡ covering_of f.now.formula.rows.now f.now.marks.now variables }
{
    let mut two: u16 = 0;
    for block in 0..variables.div_ceil(64) {
        let v = 64 * block;
        let m = (variables - v).min(64);
        let w = masks_of(f, block);
        let one = lowest_bit(!w.always, m);
        if one < m {
            let missed = v + one;
            return Err(Uncovered::Missed(Variable(missed)));
        }
        // so far none is doubled
        if two == v {
            two += lowest_bit(w.twice, m);
        }
    }
    if two < variables {
        Err(Uncovered::Doubled(Variable(two)))
    } else {
        Ok(())
    }
}
