// The requests. Each judges the whole table first; a refusal writes nothing.
ghost use Rattle.std.specs.Prelude.{◌≡◌, length};
ghost use Rattle.filling.specs.Filling.{Fills};
ghost use Rattle.answers.specs.Requests.{judge_of, order_of, transition_of, assignments_of};

use answers::Counts;
use answers::judged::AcceptedTable;
use filling::{Length, fill};
use paper::Refusal;
use paper::limits::SLOTS;
use strategy::judge_into;

// V, N, S and the transition count, or a refusal.
pub fn judge(words: &[u16]) -> Result<Counts, Refusal>
    ensures { result ≡ judge_of words.now }
{
    let found = strategy::judge(words)?;
    Ok(Counts::from(found))
}

// The reported order, in the first S words of `out`.
pub fn order(words: &[u16], out: &mut [u16]) -> Result<Length, Refusal>
    ensures { Fills (order_of words.now (length out.old)) out.old out.new result }
{
    let mut reported = [0u16; SLOTS];
    let accepted = judge_into(words, &mut reported)?;
    let chosen = accepted.layout.chosen;
    fill(&reported[..chosen], out)
}

// The kept labels of transition k, in the first N bytes of `out`: 1 for a kept label, else 0.
pub fn transition(words: &[u16], k: usize, out: &mut [u8]) -> Result<Length, Refusal>
    ensures { Fills (transition_of words.now k (length out.old)) out.old out.new result }
{
    let accepted = strategy::judge(words)?;
    let table = AcceptedTable { words, accepted };
    table.transition_of(k, out)
}

// The chosen labels of transition k in reported order, in the first V words of `out`.
pub fn assignments(words: &[u16], k: usize, out: &mut [u16]) -> Result<Length, Refusal>
    ensures { Fills (assignments_of words.now k (length out.old)) out.old out.new result }
{
    let mut reported = [0u16; SLOTS];
    let accepted = judge_into(words, &mut reported)?;
    let table = AcceptedTable { words, accepted };
    table.assignments_of(&reported, k, out)
}
