// The requests as C asks them: the words, the lent slice and the number k come in, and each answer goes out packed in one number.
// Crate nocturenc_c exports them.
ghost use Rattle.std.specs.Prelude.{◌≡◌, length};
ghost use Rattle.answers.specs.Requests.{judge_of, order_of, transition_of, assignments_of};
ghost use Rattle.answers.specs.Inside.Judged.{FitCounts, FitFilled};
ghost use Rattle.paper.specs.Refusals.{fault_number};
ghost use Rattle.nocturenc.specs.Packed.{refused_as, counts_of, packed_filled, ReadRefusal, ReadFilling, AnswerPacked, FillsPacked};

use crate::requests::{assignments, judge, order, transition};
use answers::Counts;
use filling::Length;
use paper::Refusal;

// A refusal: its number in the top byte, its place in the low 32 bits.
fn packed_refusal(r: Refusal) -> u64
    ensures value { result ≡ refused_as (fault_number r.fault) r.place }
    ensures read_refusal { ReadRefusal r result }
{
    u64::from(u8::from(r.fault)) * 72057594037927936 + u64::from(r.place)
}

// The counts of an accepted table, each in its bits. They are cast, since there is no From of usize for u64.
fn packed_counts(c: Counts) -> u64
    requires { FitCounts c }
    ensures { result ≡ counts_of c }
{
    let rows = (c.rows as u64) * 536870912;
    let chosen = (c.chosen as u64) * 65536;
    (c.variables as u64) * 4398046511104 + rows + chosen + (c.transitions as u64)
}

// The answer of a request that fills.
fn packed_filled(f: Result<Length, Refusal>) -> u64
    requires { FitFilled f }
    ensures value { result ≡ packed_filled f }
    ensures read_filling { ReadFilling f result }
{
    match f {
        Ok(l) => l.count as u64,
        Err(r) => packed_refusal(r),
    }
}

// Judges a table.
pub fn nocturenc_judge(words: &[u16]) -> u64
    ensures { AnswerPacked (judge_of words.now) result }
{
    match judge(words) {
        Ok(c) => packed_counts(c),
        Err(r) => packed_refusal(r),
    }
}

// Fills `out` with the reported order.
pub fn nocturenc_order(words: &[u16], out: &mut [u16]) -> u64
    ensures { FillsPacked (order_of words.now (length out.old)) out.old out.new result }
{
    packed_filled(order(words, out))
}

// Fills `out` with a byte for each label: 1 if transition k keeps it, else 0.
pub fn nocturenc_transition(words: &[u16], k: usize, out: &mut [u8]) -> u64
    ensures { FillsPacked (transition_of words.now k (length out.old)) out.old out.new result }
{
    packed_filled(transition(words, k, out))
}

// Fills `out` with the chosen labels of transition k, in reported order.
pub fn nocturenc_assignments(words: &[u16], k: usize, out: &mut [u16]) -> u64
    ensures { FillsPacked (assignments_of words.now k (length out.old)) out.old out.new result }
{
    packed_filled(assignments(words, k, out))
}
