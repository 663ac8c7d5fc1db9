// A walk over the rows of a formula: the expressions right under a row, and the value of a fold that is worked out by recursion.
ghost use Rattle.std.specs.Prelude.{◌≡◌, ◌+◌, ◌*◌, ◌≤◌, ◌<◌, length};
ghost use Rattle.paper.specs.Formula.{ℓ};
ghost use Rattle.paper.specs.Inside.Structure.Fold.{Fold};
ghost use Rattle.std.specs.Iterator.{at_most};
ghost use Rattle.rows.specs.Inside.Walk.{expressions_at, first_at, is_conjunction, Shaped, Stand, value_at};
ghost use Rattle.rows.specs.Inside.OneProof.{Shaped-prop, Stand-prop};
ghost use Rattle.paper.specs.Limits.{most_rows};

use crate::form::{Form, form_of};
use crate::{arg_of, end_of};
use paper::{Label, Variable};

// A formula as rows write it: the rows, which a walk can go over, and how many they are.
#[derive(Clone, Copy)]
pub struct Formula<'a> {
    pub rows: &'a [u16],
    pub n: u16,
    pub ghost shaped: { Shaped rows.now n } by { Shaped-prop rows.now n },
}

// The expressions right under a row that are still to come: how many, and the row of the next.
#[derive(Drop)]
pub struct Children<'a> {
    pub rows: &'a [u16],
    pub more: u16,
    pub at: Label,
    pub ghost there: { Stand rows.now more at.0 } by { Stand-prop rows.now more at.0 },
}

// Each stands at the end of the one before.
impl Iterator for Children<'_> {
    ghost use Rattle.rows.specs.Inside.Stepping.{Steps};

    type Item = Label;

    ghost next_gives = { Steps };

    ghost remaining = { λ s. at_most s.more };

    fn next(&mut self) -> Option<Label> {
        if self.more == 0 {
            return None;
        }
        let rows = self.rows;
        let here = self.at;
        *self = Children {
            rows,
            more: self.more - 1,
            at: end_of(rows, here),
        };
        Some(here)
    }
}

// What a walk works out of a formula: a value for each leaf, and how the values of a join's children are joined from a unit on.
pub trait Folding {
    type Value;

    ghost fold: { Self → Fold Self.Value };

    // the value of FALSE or a test
    fn at_leaf(&self, at: Label) -> Self::Value
        requires { at.0 < most_rows }
        ensures { (result ≡ (fold self.now).at_false at) × (result ≡ (fold self.now).at_test at) };

    fn at_candidate(&self, at: Label, v: Variable) -> Self::Value
        requires { at.0 < most_rows }
        ensures { result ≡ (fold self.now).at_candidate at v };

    fn unit(&self, conj: bool) -> Self::Value
        ensures { result ≡ (fold self.now).unit conj };

    // what was read before and one child more
    fn join(&self, conj: bool, a: Self::Value, b: Self::Value) -> Self::Value
        ensures { result ≡ (fold self.now).join conj a b };
}

// Whether a row of a form joins values as a conjunction does.
fn is_conjunction(form: Form) -> bool
    ensures { result ≡ is_conjunction form }
{
    matches!(form, Form::Conjunction)
}

impl<'a> Formula<'a> {
    // The expressions right under a row.
    pub fn children(&self, at: Label) -> Children<'a>
        requires { at.0 < self.now.n }
        ensures { (result.rows ≡ self.now.rows) × (result.more ≡ expressions_at self.now.rows.now at.0)
            × (result.at ≡ ℓ (first_at self.now.rows.now at.0)) }
    {
        let rows = self.rows;
        Children {
            rows,
            more: expressions_of(rows, at),
            at: first_of(rows, at),
        }
    }

    // The value of the formula at a row, `left` levels deep at most.
    pub fn value_of<W: Folding>(&self, walk: &W, at: Label, left: u16) -> W::Value
        requires { at.0 < self.now.n }
        ensures { result ≡ value_at (W.fold walk.now) self.now.rows.now left at.0 }
    {
        if left == 0 {
            return walk.at_leaf(at);
        }
        let rows = self.rows;
        let form = form_of(rows, at);
        match form {
            Form::False | Form::Star | Form::Unknown => walk.at_leaf(at),
            Form::Candidate => walk.at_candidate(at, Variable(arg_of(rows, at))),
            Form::Conjunction | Form::Disjunction | Form::Exists | Form::If => {
                let conj = is_conjunction(form);
                let mut acc = walk.unit(conj);
                for child in self.children(at) {
                    acc = walk.join(conj, acc, self.value_of(walk, child, left - 1));
                }
                acc
            }
        }
    }
}

// How many expressions stand right under a row.
pub fn expressions_of(rows: &[u16], at: Label) -> u16
    requires { 4 * at.0 + 4 ≤ length rows.now }
    ensures { result ≡ expressions_at rows.now at.0 }
{
    match form_of(rows, at) {
        Form::False | Form::Star | Form::Candidate | Form::Unknown => 0,
        Form::Conjunction | Form::Disjunction => arg_of(rows, at),
        Form::Exists => 1,
        Form::If => 2,
    }
}

// The first expression under a row: the next row, or the one past the guard star.
pub fn first_of(rows: &[u16], at: Label) -> Label
    requires { (4 * at.0 + 4 ≤ length rows.now) × (at.0 < most_rows) }
    ensures { result ≡ ℓ (first_at rows.now at.0) }
{
    match form_of(rows, at) {
        Form::Candidate | Form::Exists | Form::If => Label(at.0 + 2),
        Form::False | Form::Star | Form::Conjunction | Form::Disjunction | Form::Unknown => Label(
            at.0 + 1,
        ),
    }
}
