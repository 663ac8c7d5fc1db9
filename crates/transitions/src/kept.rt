// The labels that transition k keeps: quotient and remainder at a conjunction, whose first child is the most significant;
// offset at a disjunction or an IF; all children where the only key is the empty one.
ghost use Rattle.std.specs.Prelude.{◌≡◌, ◌++◌, ◌≤◌, ◌<◌, length, drop, replicate};
ghost use Rattle.transitions.specs.Inside.Kept.{CanTake, turn_of, goes_by_each, shares_of, Keepable, KeptAfter, MarkedKept};
ghost use Rattle.paper.specs.Limits.{most_depth};

use crate::{Shares, Turn};
use keys::{Distinct, keys_of, total_of};
use marks::MarkedFormula;
use paper::Label;
use paper::limits::MOST_DEPTH;
use rows::form::{Form, form_of};

// The turn of a child that has `own` keys.
#[tactic(auto, unfolding(crate::specs::Inside::Kept::turn_of))]
fn turn_of(s: Shares, own: u64) -> Turn
    requires { CanTake s own }
    ensures { result ≡ turn_of s own }
{
    match s {
        Shares::Each(k, all) => {
            let rest = all / own;
            Turn {
                key: Some(k / rest),
                next: Shares::Each(k % rest, rest),
            }
        }
        Shares::All => Turn {
            key: (own != 0).then_some(0),
            next: Shares::All,
        },
        Shares::One(k) => {
            if k < own {
                return Turn {
                    key: Some(k),
                    next: Shares::Done,
                };
            }
            Turn {
                key: None,
                next: Shares::One(k - own),
            }
        }
        Shares::Done => Turn {
            key: None,
            next: Shares::Done,
        },
    }
}

// Whether the children of a join go by quotient and remainder: those of a conjunction, and the one of an exists.
fn goes_by_each(form: Form) -> bool
    ensures { result ≡ goes_by_each form }
{
    matches!(form, Form::Conjunction | Form::Exists)
}

// How the children of a join take part in its key k. The flag is that of the definition `shares_of`.
#[tactic(auto, unfolding(crate::specs::Inside::Kept::shares_of))]
fn shares_of(each: bool, keys: Distinct, k: u64) -> Shares
    ensures { result ≡ shares_of each keys k }
{
    if each {
        return Shares::Each(k, total_of(keys));
    }
    if keys.empty {
        return Shares::All;
    }
    Shares::One(k)
}

// Sets the bytes of the labels that key k of the formula at a row keeps, the formula being `left` levels deep at most and `own`
// its keys. The keys of a child are counted once, for its turn and for the walk that goes on there. Six parameters: `at`, `left`, `own` and
// `k` change at each step.
pub fn keep(f: &MarkedFormula, at: Label, left: u16, own: Distinct, k: u64, out: &mut [u8])
    requires { Keepable f.now.formula.rows.now f.now.marks.now out.old f.now.formula.n at.0 left own k }
    ensures { KeptAfter f.now.formula.rows.now f.now.marks.now left at.0 k out.old out.new }
{
    let i = usize::from(at.0);
    if left == 0 {
        out[i] = 1;
        return;
    }
    let form = form_of(f.formula.rows, at);
    match form {
        Form::False | Form::Star | Form::Candidate | Form::Unknown => {
            out[i] = 1;
        }
        Form::Conjunction | Form::Disjunction | Form::Exists | Form::If => {
            let mut s = shares_of(goes_by_each(form), own, k);
            for child in f.formula.children(at) {
                let keys = keys_of(f, child, left - 1);
                let turn = turn_of(s, total_of(keys));
                if let Some(key) = turn.key {
                    keep(f, child, left - 1, keys, key, out);
                }
                // none of those still to come takes part
                if let Shares::Done = turn.next {
                    return;
                }
                s = turn.next;
            }
        }
    }
}

// Sets the first n bytes to 0.
fn clear(out: &mut [u8], n: u16)
    requires { n ≤ length out.old }
    ensures { out.new ≡ replicate n 0 ++ drop n out.old }
{
    out[..usize::from(n)].fill(0);
}

// Fills the first n bytes with the marks of transition k: 1 for a kept label, else 0. The bytes after them stay. `own` are the keys
// of the whole formula, so that a caller who asks for many transitions counts them once.
pub fn mark_kept(f: &MarkedFormula, own: Distinct, k: u64, out: &mut [u8])
    requires { Keepable f.now.formula.rows.now f.now.marks.now out.old f.now.formula.n 0 most_depth own k }
    ensures { MarkedKept f.now.formula.rows.now f.now.marks.now f.now.formula.n k out.old out.new }
{
    clear(out, f.formula.n);
    keep(f, Label(0), MOST_DEPTH, own, k, out);
}
