// The judgement of bytes: 17 first, then that of their words.
ghost use Rattle.std.specs.Prelude.{◌≡◌, ◌≤◌, length};
ghost use Rattle.input.specs.Bytes.{words_of, JudgedBytes};
ghost use Rattle.paper.specs.Limits.{most_bytes, slots};

use paper::Refusal;
use paper::limits::SLOTS;
use paper::refusals::{Fault, refusal_for};
use strategy::{Accepted, judge_into};

// The answer to any bytes, at most 65,536, whose words these are. Of accepted ones the reported order stands in front of `order`; a
// refusal leaves it as it was.
pub fn judge_bytes(
    bytes: &[u8],
    words: &[u16],
    order: &mut [u16; SLOTS],
) -> Result<Accepted, Refusal>
    requires { (length bytes.now ≤ most_bytes) × (words.now ≡ words_of bytes.now) × (length order.old ≡ slots) }
    ensures { JudgedBytes bytes.now order.old order.new result }
{
    if bytes.len() % 2 == 1 {
        return Err(refusal_for(Fault::OddBytes, bytes.len() / 2));
    }
    judge_into(words, order)
}
