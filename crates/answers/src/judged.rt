// An accepted table, for a caller that has judged its words, and what is asked of it: transition k and its assignments. 15, then 18,
// then 16; nothing is written before all are passed.
ghost use Rattle.std.specs.Prelude.{◌≡◌, ◌<◌, length};
ghost use Rattle.paper.specs.Limits.{most_rows};
ghost use Rattle.filling.specs.Filling.{Fills};
ghost use Rattle.answers.specs.Requests.{transition_outcome, assignments_outcome};
ghost use Rattle.answers.specs.Inside.Judged.{AcceptedAs, Ordered, BasedExactly, Kept};

use crate::numbered::Basis;
use filling::{Length, fill};
use keys::keys_of;
use marks::{MarkedFormula, marks_of};
use paper::limits::{MOST_DEPTH, MOST_ROWS, SLOTS};
use paper::refusals::{Fault, refusal_for};
use paper::{Label, Refusal};
use rows::walk::Formula;
use strategy::Accepted;
use transitions::assigned::count_kept;

// An accepted table: words, with what their judgement says of them. Whoever has judged makes one.
#[derive(Clone, Copy)]
pub struct AcceptedTable<'a> {
    pub words: &'a [u16],
    pub accepted: Accepted,
    pub ghost judged_so: { AcceptedAs words.now accepted },
}

impl<'a> AcceptedTable<'a> {
    // The basis of the table's transitions.
    pub fn basis(&self) -> Basis<'a>
        ensures table { result.table ≡ self.now }
        ensures exactly { BasedExactly self.now.words.now self.now.accepted.layout result.marks result.own }
    {
        let words = self.words;
        let l = self.accepted.layout;
        let rows = l.rows_at;
        let chosen = l.chosen_at;
        let marks = marks_of(&words[chosen..]);
        let formula = Formula {
            rows: &words[rows..],
            n: l.rows as u16,
        };
        let f = MarkedFormula {
            formula,
            marks: &marks,
        };
        let own = keys_of(&f, Label(0), MOST_DEPTH);
        Basis {
            table: *self,
            marks,
            own,
        }
    }

    // Puts the bytes of transition k in front; gives how many chosen labels it keeps.
    fn keep(&self, k: usize, kept: &mut [u8]) -> usize
        requires { (k < self.now.accepted.transitions) × (length kept.old ≡ most_rows) }
        ensures { Kept self.now.words.now self.now.accepted.layout k kept.old kept.new result }
    {
        let basis = self.basis();
        basis.put_kept(k, kept);
        let l = self.accepted.layout;
        let chosen = l.chosen_at;
        let n = l.rows;
        count_kept(&self.words[chosen..], &kept[..n])
    }

    // The kept labels of transition k, in the first N bytes of `out`. Apart from its caller, so that the arrays are not on the stack while
    // the table is judged; so the next.
    #[inline(never)]
    pub fn transition_of(&self, k: usize, out: &mut [u8]) -> Result<Length, Refusal>
        ensures { Fills (transition_outcome self.now.words.now k (length out.old) self.now.accepted.layout self.now.accepted.transitions)
            out.old out.new result }
    {
        let l = self.accepted.layout;
        let count = self.accepted.transitions;
        if count <= k {
            return Err(refusal_for(Fault::NoSuchTransition, count));
        }
        let mut kept = [0u8; MOST_ROWS];
        let chosen = self.keep(k, &mut kept);
        if chosen != l.variables {
            return Err(refusal_for(Fault::Uneven, k));
        }
        fill(&kept[..l.rows], out)
    }

    // The chosen labels of transition k in reported order, V words, at the front of `out`; `order` begins with the reported order, and
    // stands apart: two functions have it.
    #[inline(never)]
    pub fn assignments_of(
        &self,
        order: &[u16],
        k: usize,
        out: &mut [u16],
    ) -> Result<Length, Refusal>
        requires { Ordered self.now.words.now self.now.accepted order.now }
        ensures { Fills (assignments_outcome self.now.words.now k (length out.old) self.now.accepted.layout self.now.accepted.transitions)
            out.old out.new result }
    {
        let l = self.accepted.layout;
        let count = self.accepted.transitions;
        if count <= k {
            return Err(refusal_for(Fault::NoSuchTransition, count));
        }
        let basis = self.basis();
        let mut kept = [0u8; MOST_ROWS];
        let mut labels = [0u16; SLOTS];
        let assigned = basis.put_assigned(order, k, &mut kept, &mut labels);
        if assigned != l.variables {
            return Err(refusal_for(Fault::Uneven, k));
        }
        fill(&labels[..assigned], out)
    }
}
