// The lowest label on a cycle of "before" (document 01, refusal 13). Chosen labels are spoken of by their indices: their positions
// in the strategy. The indices are walked against "before", each once. The path of the walk falls into segments: the indices of
// one lead to one another. An index before the last one that lies on the path joins the segments from its own on; a segment whose
// fingers have run out is done, and is on a cycle if it has two indices or more. An index that is before itself is found beforehand.
#![tactic(auto)]

ghost use Rattle.std.specs.Prelude.{◌≡◌, ℕ, ◌+◌, ◌-◌, ◌<◌, ◌≤◌, length, get_or};
ghost use Rattle.net.specs.Inside.Prior.{prior};
ghost use Rattle.cycles.specs.Inside.Cyclic.{lowest_on_cycle};
ghost use Rattle.fingers.specs.Inside.Follow.{graph};
ghost use Rattle.cycles.specs.Inside.Path.{Walked, Best, Finished, Settled, Counted, Merged, Stepped, Explored, Selfless};
ghost use Rattle.fingers.specs.Inside.Spots.{reads_any};
ghost use Rattle.paper.specs.Limits.{slots};

use entries::decided::first_decided;
use fingers::{Following, start, stop_of};
use paper::limits::SLOTS;
use paper::{Label, Variable};
use rows::{arg_of, from_of};

// The path: a mark for each index (0 is new, 1 is done, p + 2 is on the path at position p), the indices at its positions, the
// position where each of its segments starts, and the finger of each index. Arrays side by side, their lengths in `Walk`: the
// memory is fixed, and `seek` takes the marks alone.
#[derive(Drop)]
struct Path {
    mark: [u16; SLOTS],
    stack: [u16; SLOTS],
    bound: [u16; SLOTS],
    finger: [u64; SLOTS],
}

// Where the walk stands: how many indices the path has, and how many segments; the position after the one worked on; and
// the lowest index found on a cycle so far.
#[derive(Clone, Copy)]
struct Walk {
    len: usize,
    top: usize,
    at: usize,
    best: usize,
}

// Marks the indices of the path from position `from` on as done.
fn finish(mark: &mut [u16; SLOTS], stack: &[u16; SLOTS], from: usize, len: usize)
    requires { (length mark.old ≡ slots) × (len ≤ slots) × (from ≤ len) × ((p : ℕ) → p < len → get_or stack.now p 0 < slots) }
    ensures { Finished mark.old stack.now from len mark.new }
{
    for &i in &stack[from..len] {
        mark[usize::from(i)] = 1;
    }
}

// The least of `best` and the indices of the path from position `from` on. Positions, here as in `finish`: `Settled` and `Finished` speak
// of them.
fn settle(stack: &[u16; SLOTS], from: usize, len: usize, best: usize) -> usize
    requires { (len ≤ slots) × (from ≤ len) }
    ensures { Settled stack.now from len best result }
{
    let mut r = best;
    for &i in &stack[from..len] {
        r = r.min(usize::from(i));
    }
    r
}

// The same, if they are two or more: a single index is on a cycle only if it is before itself.
fn counted(stack: &[u16; SLOTS], from: usize, len: usize, best: usize) -> usize
    requires { (len ≤ slots) × (from ≤ len) }
    ensures { Counted stack.now from len best result }
{
    if from + 1 < len {
        return settle(stack, from, len, best);
    }
    best
}

// How many segments are left when those that start above position p are joined to the one that holds it. Counted down to the first that
// starts no further: a `for` would want an answer behind it.
fn merged(bound: &[u16; SLOTS], top: usize, p: usize) -> usize
    requires { (top ≤ slots) × (0 < top) × (get_or bound.now 0 0 ≡ 0) }
    ensures { Merged bound.now top p result }
{
    let mut t = top;
    // a while: it ends at the first bound that is not above p, which is there
    while p < usize::from(bound[t - 1]) {
        t -= 1;
    }
    t
}

impl Path {
    // One step of the walk: the last segment is done, or a finger moves on, and has run out, or finds a new index, or one of
    // the path.
    fn step(&mut self, g: &Following, mut w: Walk) -> Walk
        requires { (0 < w.len)
            × Walked (graph g.now) self.old.mark self.old.stack self.old.bound self.old.finger w.len w.top w.at
            × Best (graph g.now) self.old.mark w.best }
        ensures { Stepped (graph g.now) self.old.mark self.new.mark self.new.stack self.new.bound self.new.finger w.top w.at
            result.len result.top result.at result.best }
    {
        let len = w.len;
        let top = w.top;
        let at = w.at;
        // cast, here and below: through From it is a call's result, and the answers of this function did not close
        let b = self.bound[top - 1] as usize;
        if at == b {
            finish(&mut self.mark, &self.stack, b, len);
            w.best = counted(&self.stack, b, len, w.best);
            w.len = b;
            w.top = top - 1;
            w.at = b;
            return w;
        }
        let j = self.stack[at - 1] as usize;
        let x = g.seek(&self.mark, b, j, self.finger[j]);
        let l = x.index;
        self.finger[j] = x.finger;
        let size = g.choice.chosen.len();
        if size <= l {
            w.at = at - 1;
            return w;
        }
        if self.mark[l] == 0 {
            self.stack[len] = l as u16;
            self.mark[l] = (len + 2) as u16;
            self.bound[top] = len as u16;
            w.len = len + 1;
            w.top = top + 1;
            w.at = len + 1;
            return w;
        }
        w.top = merged(&self.bound, top, self.mark[l] as usize - 2);
        w
    }

    // Walks all that leads to root, if it is new.
    fn explore(&mut self, g: &Following, root: usize, best: usize) -> usize
        requires { (root < length g.now.choice.chosen.now)
            × Walked (graph g.now) self.old.mark self.old.stack self.old.bound self.old.finger 0 0 0
            × Best (graph g.now) self.old.mark best }
        ensures { Explored (graph g.now) root self.old.mark self.new.mark self.new.stack self.new.bound self.new.finger result }
    {
        if self.mark[root] != 0 {
            return best;
        }
        self.stack[0] = root as u16;
        self.mark[root] = 2;
        self.bound[0] = 0;
        let mut w = Walk {
            len: 1,
            top: 1,
            at: 1,
            best: best,
        };
        while 0 < w.len {
            w = self.step(g, w);
        }
        w.best
    }
}

// Whether a read from `from` up to `to` is of v.
fn is_read(reads: &[u16], from: usize, to: usize, v: Variable) -> bool
    requires { (from ≤ to) × (to ≤ length reads.now) }
    ensures { result ≡ reads_any reads.now from to v.0 }
{
    reads[from..to].contains(&v.0)
}

// Whether j is before itself: its own star reads its variable, or a guard around it does.
fn is_before_itself(g: &Following, j: usize) -> bool
    requires { j < length g.now.choice.chosen.now }
    ensures { result ≡ prior g.now.choice.rows.now g.now.reads.now g.now.choice.chosen.now j j }
{
    let rows = g.choice.rows;
    let label = g.choice.chosen[j];
    let v = Variable(arg_of(rows, Label(label)));
    let mut star = Label(label + 1);
    while 0 < star.0 {
        if is_read(
            g.reads,
            usize::from(from_of(rows, star)),
            stop_of(rows, star),
            v,
        ) {
            return true;
        }
        star = g.net.guard_of(star);
    }
    false
}

// The lowest index that is before itself, or how many there are, as `Selfless` has it.
fn first_self(g: &Following) -> usize
    ensures { Selfless (graph g.now) result }
{
    first_decided(g.choice.chosen.len(), |j| is_before_itself(g, j))
}

// The lowest index on a cycle, or how many there are, as its definition has it.
pub fn lowest_on_cycle(g: &Following) -> usize
    ensures { result ≡ lowest_on_cycle g.now.choice.rows.now g.now.reads.now g.now.choice.chosen.now }
{
    let mut path = Path {
        mark: [0; SLOTS],
        stack: [0; SLOTS],
        bound: [0; SLOTS],
        finger: [0; SLOTS],
    };
    start(&g.choice, &mut path.finger);
    let mut best = first_self(g);
    for root in 0..g.choice.chosen.len() {
        best = path.explore(g, root, best);
    }
    best
}
