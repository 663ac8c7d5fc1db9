// The reported order (document 01, "Reported order"): at each step the lowest index left that no index left is before. The
// index of a chosen label is its position in the strategy. An index that is found to wait for another keeps it in `wait`, and
// `low` keeps the lowest that waits for each, from which the next step looks on.
#![tactic(auto)]

ghost use Rattle.std.specs.Prelude.{◌≡◌, ◌≤◌, ◌<◌, ◌&&◌, ltb, length};
ghost use Rattle.ordering.specs.Inside.Reported.{OrderFilled};
ghost use Rattle.fingers.specs.Inside.Follow.{graph};
ghost use Rattle.fingers.specs.Inside.Graph.{free};
ghost use Rattle.ordering.specs.Inside.Placing.{State, Lowered, Visited, Lowest};
ghost use Rattle.paper.specs.Limits.{slots};

use fingers::{Following, start};
use paper::limits::SLOTS;

// An index that no chosen label has.
const NO_INDEX: u16 = SLOTS as u16;

// What is kept of each index that is left: its finger, the index that it waits for, and the lowest that waits for it. It is
// words, with `NO_INDEX` for none: the memory is fixed, and an Option would double them on the stack.
#[derive(Drop)]
struct Waits {
    finger: [u64; SLOTS],
    wait: [u16; SLOTS],
    low: [u16; SLOTS],
}

// Notes that k waits for f.
fn lower(low: &mut [u16; SLOTS], f: usize, k: usize)
    requires { (length low.old ≡ slots) × (f < slots) × (k < slots) }
    ensures { Lowered low.old f k low.new }
{
    low[f] = low[f].min(k as u16);
}

// Whether w is an index, of so many, that is not placed.
fn is_waiting(placed: &[u16; SLOTS], size: usize, w: usize) -> bool
    requires { size < slots }
    ensures { result ≡ (ltb w size && free placed.now w) }
{
    w < size && placed[w] == 0
}

impl Waits {
    // Visits k: whether it is ready. If it is not, it is placed, or waits.
    fn visit(&mut self, g: &Following, placed: &[u16; SLOTS], k: usize) -> bool
        requires { (k < length g.now.choice.chosen.now) × State (graph g.now) k placed.now self.old.finger self.old.wait self.old.low }
        ensures { Visited (graph g.now) k placed.now self.new.finger self.new.wait self.new.low result }
    {
        let size = g.choice.chosen.len();
        if placed[k] != 0 {
            return false;
        }
        if is_waiting(placed, size, usize::from(self.wait[k])) {
            return false;
        }
        let x = g.seek(placed, 0, k, self.finger[k]);
        let l = x.index;
        self.finger[k] = x.finger;
        self.wait[k] = l as u16;
        if l < size {
            lower(&mut self.low, l, k);
            return false;
        }
        true
    }

    // The lowest index from `from` on that is ready, if one is. Apart from its caller: in one body with it, tables with many guards take
    // longer.
    #[inline(never)]
    fn lowest_ready(&mut self, g: &Following, placed: &[u16; SLOTS], from: usize) -> Option<usize>
        requires { (from ≤ length g.now.choice.chosen.now) × State (graph g.now) from placed.now self.old.finger self.old.wait self.old.low }
        ensures { Lowest (graph g.now) placed.now self.new.finger self.new.wait self.new.low result }
    {
        for k in from..g.choice.chosen.len() {
            if self.visit(g, placed, k) {
                return Some(k);
            }
        }
        None
    }
}

// Fills `out` with the labels in the reported order, as far as there is one, and says how many are placed.
pub fn order(g: &Following, out: &mut [u16; SLOTS]) -> usize
    requires { length out.old ≡ slots }
    ensures { OrderFilled g.now.choice.rows.now g.now.reads.now g.now.choice.chosen.now out.old out.new result }
{
    let chosen = g.choice.chosen;
    let mut placed = [0; SLOTS];
    let mut waits = Waits {
        finger: [0; SLOTS],
        wait: [0; SLOTS],
        low: [0; SLOTS],
    };
    waits.wait.fill(NO_INDEX); // filled here: arrays that are moved in take their size again on the stack
    waits.low.fill(NO_INDEX);
    start(&g.choice, &mut waits.finger);
    let mut count = 0;
    let mut from = 0;
    while let Some(k) = waits.lowest_ready(g, &placed, from) {
        out[count] = chosen[k];
        placed[k] = 1;
        count += 1;
        from = usize::from(waits.low[k]).min(k + 1);
    }
    count
}
