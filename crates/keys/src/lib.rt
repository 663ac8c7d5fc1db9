// The number of distinct keys of a formula, counted by recursion over the rows: refusal 14.
#![tactic(auto)]

ghost use Rattle.std.specs.Prelude.{◌≡◌, true, false, ◌≤◌, ◌<◌, min};
ghost use Rattle.marks.specs.Marks.{is_marked};
ghost use Rattle.keys.specs.Inside.Keys.{limit, total, leaf_keys, join_keys, keys_fold, keys_at};
ghost use Rattle.paper.specs.Limits.{most_rows};

use marks::{MarkedFormula, is_marked};
use paper::limits::{MOST_ROWS, MOST_TRANSITIONS};
use paper::{Label, Variable};
use rows::walk::Folding;

// How many distinct keys are not empty, at most 65,536, and whether the empty key is one.
#[derive(Clone, Copy)]
pub struct Distinct {
    pub more: u32,
    pub empty: bool,
}

// All keys, the empty one among them.
pub fn total_of(k: Distinct) -> u64
    ensures { result ≡ total k }
{
    u64::from(k.more) + u64::from(k.empty)
}

// One more than an accepted table can have.
const LIMIT: u64 = MOST_TRANSITIONS + 1;

// At most so many.
fn capped(x: u64) -> u32
    ensures { result ≡ min limit x }
{
    x.min(LIMIT) as u32
}

// The keys of a conjunction of two: each of the one with each of the other. In 64 bits no two are too many.
#[tactic(auto, unfolding(crate::specs::Inside::Keys::join_keys))]
fn keys_of_both(a: Distinct, b: Distinct) -> Distinct
    ensures { result ≡ join_keys true a b }
{
    let product = u64::from(a.more) * total_of(b);
    let alone = if a.empty { u64::from(b.more) } else { 0 };
    Distinct {
        more: capped(product + alone),
        empty: a.empty & b.empty,
    }
}

// The keys of a disjunction of two.
#[tactic(auto, unfolding(crate::specs::Inside::Keys::join_keys))]
fn keys_of_either(a: Distinct, b: Distinct) -> Distinct
    ensures { result ≡ join_keys false a b }
{
    Distinct {
        more: capped(u64::from(a.more) + u64::from(b.more)),
        empty: a.empty | b.empty,
    }
}

// The walk that counts keys: a leaf has one, which is not empty if the leaf is chosen.
#[derive(Drop)]
struct Keys<'a> {
    marks: &'a [u8; MOST_ROWS],
}

impl Folding for Keys<'_> {
    type Value = Distinct;

    ghost fold = { λ walk. keys_fold walk.marks.now };

    fn at_leaf(&self, at: Label) -> Distinct {
        let marks = self.marks;
        let chosen = is_marked(marks, at);
        Distinct {
            more: u32::from(chosen),
            empty: !chosen,
        }
    }

    fn at_candidate(&self, at: Label, _v: Variable) -> Distinct {
        self.at_leaf(at)
    }

    fn unit(&self, conj: bool) -> Distinct {
        Distinct {
            more: 0,
            empty: conj,
        }
    }

    fn join(&self, conj: bool, a: Distinct, b: Distinct) -> Distinct {
        if conj {
            keys_of_both(a, b)
        } else {
            keys_of_either(a, b)
        }
    }
}

// The keys of the formula at a row, `left` levels deep at most.
pub fn keys_of(f: &MarkedFormula, at: Label, left: u16) -> Distinct
    requires { at.0 < f.now.formula.n }
    ensures { (result ≡ keys_at f.now.formula.rows.now f.now.marks.now left at.0) × (result.more ≤ limit) }
{
    f.formula.value_of(&Keys { marks: f.marks }, at, left)
}
