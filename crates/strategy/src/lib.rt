// The verdict on a table's words: is the proposal a strategy? Refusals 10 to 14 and what an acceptance counts (document 01).
#![tactic(auto)]

ghost use Rattle.std.specs.Prelude.{◌≡◌, length};
ghost use Rattle.strategy.specs.Judge.{judged_of, JudgedInto};
ghost use Rattle.paper.specs.Limits.{slots};

use paper::Refusal;
use paper::limits::SLOTS;
use table::{Layout, check};

mod checks; // 10 to 14, one after another
mod choice; // 10

// What is known of an accepted table: its counts and positions, and the number of its transitions.
#[derive(Clone, Copy)]
pub struct Accepted {
    pub layout: Layout,
    pub transitions: usize,
}

// The answer to any words, with the reported order of an accepted table in the first S words of `order`; a refusal leaves all of them
// as they were. The caller says that the array has its length: a loan of one does not tell.
pub fn judge_into(words: &[u16], order: &mut [u16; SLOTS]) -> Result<Accepted, Refusal>
    requires { length order.old ≡ slots }
    ensures { JudgedInto words.now order.old order.new result }
{
    let l = check(words)?;
    let rows = l.rows_at;
    let reads = l.reads_at;
    let behind = l.reads_at + l.reads;
    let chosen = l.chosen_at;
    checks::judge_parts(
        &words[rows..],
        &words[reads..behind],
        &words[chosen..],
        l,
        order,
    )
}

// The answer to any words.
pub fn judge(words: &[u16]) -> Result<Accepted, Refusal>
    ensures { result ≡ judged_of words.now }
{
    let mut order = [0u16; SLOTS];
    judge_into(words, &mut order)
}
