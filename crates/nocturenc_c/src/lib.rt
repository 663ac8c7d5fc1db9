// The archive for C: the four requests of crate nocturenc under their names, each answer packed in one number. A slice is a pointer and
// then a length, as include/nocturenc.h declares it.
#![tactic(auto)]

ghost use Rattle.std.specs.Prelude.{length};
ghost use Rattle.answers.specs.Requests.{judge_of, order_of, transition_of, assignments_of};
ghost use Rattle.nocturenc.specs.Packed.{AnswerPacked, FillsPacked};

use nocturenc::exported;

// Judges a table.
#[unsafe(no_mangle)]
pub extern "C" fn nocturenc_judge(words: &[u16]) -> u64
    ensures { AnswerPacked (judge_of words.now) result }
{
    exported::nocturenc_judge(words)
}

// Fills `out` with the reported order.
#[unsafe(no_mangle)]
pub extern "C" fn nocturenc_order(words: &[u16], out: &mut [u16]) -> u64
    ensures { FillsPacked (order_of words.now (length out.old)) out.old out.new result }
{
    exported::nocturenc_order(words, out)
}

// Fills `out` with a byte for each label: 1 if transition k keeps it, else 0.
#[unsafe(no_mangle)]
pub extern "C" fn nocturenc_transition(words: &[u16], k: usize, out: &mut [u8]) -> u64
    ensures { FillsPacked (transition_of words.now k (length out.old)) out.old out.new result }
{
    exported::nocturenc_transition(words, k, out)
}

// Fills `out` with the chosen labels of transition k, in reported order.
#[unsafe(no_mangle)]
pub extern "C" fn nocturenc_assignments(words: &[u16], k: usize, out: &mut [u16]) -> u64
    ensures { FillsPacked (assignments_of words.now k (length out.old)) out.old out.new result }
{
    exported::nocturenc_assignments(words, k, out)
}
