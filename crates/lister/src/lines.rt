// The lines of a listing of an accepted table, put by a pen: the first two, and those of its transitions, as many at a time as surely fit.
ghost use Rattle.std.specs.Prelude.{◌<◌, take};
ghost use Rattle.answers.specs.Inside.Judged.{Ordered};
ghost use Rattle.listing.specs.Inside.Placed.{Room, Puts};
ghost use Rattle.lister.specs.Listing.{head_of, line_of};
ghost use Rattle.lister.specs.Inside.Steps.{Fresh, longest, LinesPut};

use answers::numbered::Basis;
use listing::Pen;
use paper::limits::{MOST_ROWS, SLOTS};

// An accepted table that is listed: what the line of every transition is worked out from, and the reported order, which stands in front.
#[derive(Clone, Copy)]
pub struct Listed<'a> {
    pub basis: &'a Basis<'a>,
    pub order: &'a [u16],
    ghost ordered: { Ordered basis.now.table.words.now basis.now.table.accepted order.now },
}

impl<'a> Listed<'a> {
    // The counts, and the order.
    pub fn put_head(&self, pen: &mut Pen)
        requires { Fresh pen.old }
        ensures { Puts pen.old
            (head_of self.now.basis.now.table.accepted (take self.now.basis.now.table.accepted.layout.chosen self.now.order.now)) pen.new }
    {
        let a = self.basis.table.accepted;
        let l = a.layout;
        let chosen = l.chosen;
        pen.accepted(l.variables, l.rows, chosen, a.transitions);
        pen.order(&self.order[..chosen]);
    }

    // The line of transition k.
    fn put_line(&self, k: usize, pen: &mut Pen)
        requires { (k < self.now.basis.now.table.accepted.transitions)
            × Room pen.old (longest self.now.basis.now.table.accepted.layout) }
        ensures { Puts pen.old (line_of self.now.basis.now.table.words.now self.now.basis.now.table.accepted.layout k) pen.new }
    {
        let mut kept = [0u8; MOST_ROWS];
        let mut labels = [0u16; SLOTS];
        let chosen = self
            .basis
            .put_assigned(self.order, k, &mut kept, &mut labels);
        let n = self.basis.table.accepted.layout.rows;
        pen.transition(k, &labels[..chosen], &kept[..n]);
    }

    // The lines of the transitions from k on, until there might be no room for one more; gives how many they are.
    pub fn put_lines(&self, k: usize, pen: &mut Pen) -> usize
        requires { (k < self.now.basis.now.table.accepted.transitions) × Fresh pen.old }
        ensures { LinesPut self.now.basis.now.table.words.now self.now.basis.now.table.accepted k pen.old pen.new result }
    {
        let a = self.basis.table.accepted;
        let l = a.layout;
        let most = 23 + 6 * l.variables + 6 * l.rows;
        let left = a.transitions - k;
        for count in 0..left {
            if pen.buf.len() - pen.at < most {
                return count;
            }
            self.put_line(k + count, pen);
        }
        left
    }
}
