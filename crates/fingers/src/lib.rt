// Fingers: by them what comes before a chosen label is gone through, as far as it is asked for. A finger points into what
// the label's own star reads, then into what the stars of the guards around it read, and there into the chosen labels of
// each variable read.
#![tactic(auto)]

ghost use Rattle.std.specs.Prelude.{◌≡◌, ◌+◌, ◌*◌, ◌/◌, ◌%◌, ◌<◌, ◌≤◌, length, get_or};
ghost use Rattle.net.specs.Inside.Prior.{share_branch_in};
ghost use Rattle.fingers.specs.Inside.Followable.{Followable, Followable-prop};
ghost use Rattle.fingers.specs.Inside.Graph.{outside};
ghost use Rattle.fingers.specs.Inside.Spots.{stop_of, packed, calls, AtStart, Apart, Looked, Seekable, IsSpot, After, Answered};
ghost use Rattle.paper.specs.Limits.{most_rows, slots};

use net::{Choice, Net, clear_of};
use paper::limits::SLOTS;
use paper::{Label, Variable};
use rows::{arg_of, from_of};

// What "before" is followed in: rows and chosen labels of theirs, what the stars read, and the net.
#[derive(Clone, Copy)]
pub struct Following<'a> {
    pub choice: Choice<'a>,
    pub reads: &'a [u16],
    pub net: &'a Net,
    pub ghost ready: { Followable choice.rows.now reads.now choice.chosen.now net.now choice.n } by { Followable-prop },
}

// A spot that a finger points to: a star (label 0 for none), its next read, and the next index of the read before. Both are as wide as
// what they enter arrays by, so that going from index to index widens nothing.
#[derive(Clone, Copy)]
struct Spot {
    star: Label,
    read: usize,
    next: usize,
    ghost read_fits: { read < 65536 },
    ghost next_fits: { next < 65536 },
}

// Labels, from `from` up to `to`, that share no branch with the one at hand.
#[derive(Clone, Copy)]
struct Known {
    from: Label,
    to: Label,
}

// A finger moved on, and the index there. One that has run out is 0 and has how many there are, no None: whoever moves it on
// notes both words as they are.
#[derive(Clone, Copy)]
pub struct Moved {
    pub finger: u64,
    pub index: usize,
}

impl<'a> Following<'a> {
    ghost use Rattle.fingers.specs.Inside.Follow.{graph};

    // The spot after p, which has a star.
    fn onward(&self, p: Spot) -> Spot
        requires { IsSpot self.now.choice.rows.now self.now.choice.chosen.now self.now.choice.n p.star.0 p.read p.next × (0 < p.star.0) }
        ensures { After self.now.choice.rows.now self.now.reads.now self.now.choice.chosen.now self.now.choice.n p.star.0 p.read p.next
            result.star.0 result.read result.next }
    {
        let rows = self.choice.rows;
        let size = self.choice.chosen.len();
        let next = p.next;
        if next < size {
            // cast, here and below: through From it is a call's result, and the answers did not close
            return Spot {
                star: p.star,
                read: p.read,
                next: self.net.next_of(next) as usize,
            };
        }
        let read = p.read;
        if read < stop_of(rows, p.star) {
            let v = Variable(self.reads[read]);
            return Spot {
                star: p.star,
                read: read + 1,
                next: self.net.first_with(v) as usize,
            };
        }
        let guard = self.net.guard_of(p.star);
        Spot {
            star: guard,
            read: from_of(rows, guard) as usize,
            next: size,
        }
    }

    // Whether an open index k calls, that is, shares a branch with j. Labels that are known to share none are not asked about again.
    fn look_at(&self, k: usize, j: usize, known: &mut Known) -> bool
        requires { (k < length self.now.choice.chosen.now) × (j < length self.now.choice.chosen.now)
            × Apart self.now.choice.rows.now self.now.choice.chosen.now j known.old.from.0 known.old.to.0 }
        ensures { Looked self.now.choice.rows.now self.now.choice.chosen.now
            (share_branch_in self.now.choice.rows.now (get_or self.now.choice.chosen.now k 0) (get_or self.now.choice.chosen.now j 0))
            j known.new.from.0 known.new.to.0 result }
    {
        let i = Label(self.choice.chosen[k]);
        if known.from.0 <= i.0 && i.0 < known.to.0 {
            return false;
        }
        let clear = clear_of(
            self.choice.rows,
            self.net,
            self.choice.n,
            i,
            Label(self.choice.chosen[j]),
        );
        known.from = i;
        known.to = clear;
        clear.0 == i.0
    }

    // Whether k, which may be no index, is one that is open, and calls. Six parameters: those of `calls` and `outside`, and what is known.
    fn look(&self, mark: &[u16; SLOTS], b: usize, k: usize, j: usize, known: &mut Known) -> bool
        requires { (b < slots) × (j < length self.now.choice.chosen.now)
            × Apart self.now.choice.rows.now self.now.choice.chosen.now j known.old.from.0 known.old.to.0 }
        ensures { Looked self.now.choice.rows.now self.now.choice.chosen.now
            (calls self.now.choice.rows.now self.now.choice.chosen.now (outside mark.now b) k j) j known.new.from.0 known.new.to.0 result }
    {
        if k < self.choice.chosen.len() {
            if is_outside(mark, b, k) {
                return self.look_at(k, j, known);
            }
        }
        false
    }

    // The finger of j moved on from `finger` to the first spot whose index is before j and is new or on the path below
    // position b, or to 0. It goes by a copy of what is followed, and stands in its callers: here tables with many guards spend their
    // time.
    #[inline(always)]
    pub fn seek(&self, mark: &[u16; SLOTS], b: usize, j: usize, finger: u64) -> Moved
        requires { Seekable (graph self.now) b j finger }
        ensures { Answered self.now.choice.rows.now self.now.reads.now self.now.choice.chosen.now self.now.choice.n (outside mark.now b)
            j finger result }
    {
        let g = *self;
        let mut p = spot_of(finger);
        let mut known = Known {
            from: Label(0),
            to: Label(0),
        };
        while 0 < p.star.0 {
            if g.look(mark, b, p.next, j, &mut known) {
                return Moved {
                    finger: u64::from(p),
                    index: p.next,
                };
            }
            p = g.onward(p);
        }
        Moved {
            finger: 0,
            index: g.choice.chosen.len(),
        }
    }
}

// One past the last read of a star.
pub fn stop_of(rows: &[u16], star: Label) -> usize
    requires { 4 * star.0 + 4 ≤ length rows.now }
    ensures { result ≡ stop_of rows.now star.0 }
{
    usize::from(from_of(rows, star)) + usize::from(arg_of(rows, star))
}

// Whether i is new, or on the path below position b.
fn is_outside(mark: &[u16; SLOTS], b: usize, i: usize) -> bool
    requires { (i < slots) × (b < slots) }
    ensures { result ≡ outside mark.now b i }
{
    let m = usize::from(mark[i]);
    m != 1 && m < b + 2
}

// A spot as a finger.
impl From<Spot> for u64 {
    ghost from_gives = { λ p f. f ≡ packed p.star.0 p.read p.next };

    fn from(p: Spot) -> u64 {
        u64::from(p.star.0) * 4294967296 + (p.read as u64) * 65536 + p.next as u64
    }
}

// The spot of a finger: no From, as it asks that the finger has the star of a row.
fn spot_of(f: u64) -> Spot
    requires { f / 4294967296 < most_rows }
    ensures { (result.star.0 ≡ f / 4294967296) × (result.read ≡ f / 65536 % 65536) × (result.next ≡ f % 65536) }
{
    let star = (f / 4294967296) as u16;
    Spot {
        star: Label(star),
        read: (f / 65536 % 65536) as usize,
        next: (f % 65536) as usize,
    }
}

// Puts every finger before all that its index's own star reads; words beyond them stay.
pub fn start(c: &Choice, finger: &mut [u64; SLOTS])
    requires { length finger.old ≡ slots }
    ensures { AtStart c.now.rows.now c.now.chosen.now (length c.now.chosen.now) finger.old finger.new }
{
    for j in 0..c.chosen.len() {
        let star = Label(c.chosen[j] + 1);
        finger[j] = u64::from(Spot {
            star: star,
            read: from_of(c.rows, star) as usize,
            next: c.chosen.len(),
        });
    }
}
