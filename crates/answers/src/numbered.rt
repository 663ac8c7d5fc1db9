// Transition k of an accepted table, for a caller that has judged it: the bytes of its kept labels, and its chosen labels in reported
// order, each put in front of what was there. The requests and the lister ask here.
ghost use Rattle.std.specs.Prelude.{◌≡◌, ◌<◌, length};
ghost use Rattle.paper.specs.Limits.{most_rows, slots};
ghost use Rattle.entries.specs.Front.{in_front};
ghost use Rattle.answers.specs.Requests.{kept_marks};
ghost use Rattle.answers.specs.Inside.Judged.{Ordered, Based, Assigned};

use crate::judged::AcceptedTable;
use keys::Distinct;
use marks::MarkedFormula;
use paper::limits::MOST_ROWS;
use rows::walk::Formula;
use transitions::assigned::fill_assigned;
use transitions::kept::mark_kept;

// What every transition of a table is worked out from: the marks of the chosen labels, and the keys of the formula. A caller that asks
// for many transitions works it out once, and lends it. The marks are an array of fixed length: there is no heap.
#[derive(Clone, Copy)]
pub struct Basis<'a> {
    pub table: AcceptedTable<'a>,
    pub marks: [u8; MOST_ROWS],
    pub own: Distinct,
    pub ghost based: { Based table.words.now table.accepted.layout marks own },
}

impl Basis<'_> {
    // Puts the bytes of transition k in front of `kept`: one for each label, 1 where it is kept, else 0.
    pub fn put_kept(&self, k: usize, kept: &mut [u8])
        requires { (k < self.now.table.accepted.transitions) × (length kept.old ≡ most_rows) }
        ensures { kept.new ≡ in_front (kept_marks self.now.table.words.now self.now.table.accepted.layout k) kept.old }
    {
        let words = self.table.words;
        let l = self.table.accepted.layout;
        let rows = l.rows_at;
        let formula = Formula {
            rows: &words[rows..],
            n: l.rows as u16,
        };
        let f = MarkedFormula {
            formula,
            marks: &self.marks,
        };
        mark_kept(&f, self.own, k as u64, kept);
    }

    // Puts the bytes of transition k in front of `kept`, and its chosen labels in the order that stands in front of `order` in front of
    // `labels`; gives how many these are.
    pub fn put_assigned(
        &self,
        order: &[u16],
        k: usize,
        kept: &mut [u8],
        labels: &mut [u16],
    ) -> usize
        requires { Ordered self.now.table.words.now self.now.table.accepted order.now × (k < self.now.table.accepted.transitions)
            × (length kept.old ≡ most_rows) × (length labels.old ≡ slots) }
        ensures { Assigned self.now.table.words.now self.now.table.accepted.layout k kept.old kept.new labels.old labels.new result }
    {
        self.put_kept(k, kept);
        let l = self.table.accepted.layout;
        let n = l.rows;
        fill_assigned(order, l.chosen, &kept[..n], labels)
    }
}
