// The checks past the table's own, in their order: 10, 11 and 12, 13, 14.
ghost use Rattle.std.specs.Prelude.{◌≡◌, ◌<◌, map, length};
ghost use Rattle.paper.specs.Formula.{ℓ};
ghost use Rattle.marks.specs.Inside.Chosen.{Marked};
ghost use Rattle.keys.specs.Inside.Keys.{total, keys_at};
ghost use Rattle.strategy.specs.Inside.Checks.{counted_as};
ghost use Rattle.strategy.specs.Inside.Parts.{Parts, Covered, OrderedParts, JudgedParts};
ghost use Rattle.paper.specs.Limits.{most_depth, slots};

use crate::Accepted;
use crate::choice::first_stranger;
use cover::covering_of;
use cycles::lowest_on_cycle;
use fingers::Following;
use keys::{keys_of, total_of};
use marks::{MarkedFormula, marks_of};
use net::{Choice, Net, note_net};
use ordering::order;
use paper::limits::{MOST_DEPTH, MOST_ROWS, MOST_TRANSITIONS, MOST_VARIABLES, SLOTS};
use paper::refusals::{Fault, refusal_for};
use paper::{Label, Refusal};
use rows::walk::Formula;
use table::Layout;

// 14, or an acceptance.
fn counted(f: &MarkedFormula, l: Layout) -> Result<Accepted, Refusal>
    requires { 0 < f.now.formula.n }
    ensures { result ≡ counted_as l (total (keys_at f.now.formula.rows.now f.now.marks.now most_depth 0)) }
{
    let transitions = total_of(keys_of(f, Label(0), MOST_DEPTH));
    if MOST_TRANSITIONS < transitions {
        return Err(refusal_for(Fault::TooMany, 0));
    }
    Ok(Accepted {
        layout: l,
        transitions: transitions as usize,
    })
}

// 13, and what follows it. The order is worked out in an array of its own: only an acceptance writes to `out`.
fn ordered(
    f: &MarkedFormula,
    reads: &[u16],
    chosen: &[u16],
    l: Layout,
    out: &mut [u16; SLOTS],
) -> Result<Accepted, Refusal>
    requires { Covered f.now.formula.rows.now reads.now chosen.now l.variables l.rows × (f.now.formula.n ≡ l.rows)
        × Marked (map ℓ chosen.now) f.now.marks.now × (length out.old ≡ slots) }
    ensures { OrderedParts f.now.formula.rows.now reads.now chosen.now l out.old out.new result }
{
    let choice = Choice {
        rows: f.formula.rows,
        chosen,
        n: f.formula.n,
    };
    let mut net = Net {
        parents: [0; MOST_ROWS],
        guards: [0; MOST_ROWS],
        nexts: [0; SLOTS],
        firsts: [0; MOST_VARIABLES],
    };
    note_net(&choice, &mut net);
    let following = Following {
        choice,
        reads,
        net: &net,
    };
    let mut reported = [0u16; SLOTS];
    let placed = order(&following, &mut reported);
    if placed < chosen.len() {
        let k = lowest_on_cycle(&following);
        return Err(refusal_for(Fault::NoOrder, usize::from(chosen[k])));
    }
    let accepted = counted(f, l)?;
    out[..placed].copy_from_slice(&reported[..placed]);
    Ok(accepted)
}

// 10, 11, 12, and what follows them.
pub fn judge_parts(
    rows: &[u16],
    reads: &[u16],
    chosen: &[u16],
    l: Layout,
    out: &mut [u16; SLOTS],
) -> Result<Accepted, Refusal>
    requires { Parts rows.now reads.now chosen.now l.variables l.rows × (length out.old ≡ slots) }
    ensures { JudgedParts rows.now reads.now chosen.now l out.old out.new result }
{
    let k = first_stranger(rows, chosen);
    if k < chosen.len() {
        return Err(refusal_for(Fault::NoCandidate, usize::from(chosen[k])));
    }
    let marks = marks_of(chosen);
    let formula = Formula {
        rows,
        n: l.rows as u16,
    };
    let f = MarkedFormula {
        formula,
        marks: &marks,
    };
    covering_of(&f, l.variables as u16)?;
    ordered(&f, reads, chosen, l, out)
}
