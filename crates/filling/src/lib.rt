// The lent slice and the answer of a request that fills: a refusal, or what stands at the front of the slice.
#![tactic(auto)]

ghost use Rattle.std.specs.Prelude.{◌<◌, ◌^◌, length};
ghost use Rattle.filling.specs.Filling.{unless_short, Fills};

use paper::Refusal;
use paper::refusals::{Fault, refusal_for};

// How many words or bytes a request filled.
#[derive(Clone, Copy)]
pub struct Length {
    pub count: usize,
}

// 16, or these words or bytes at the front of `out`.
pub fn fill<T: Copy>(from: &[T], out: &mut [T]) -> Result<Length, Refusal>
    requires { length from.now < 2 ^ 32 }
    ensures { Fills (unless_short (length out.old) from.now) out.old out.new result }
{
    let count = from.len();
    if out.len() < count {
        return Err(refusal_for(Fault::OutTooShort, count));
    }
    out[..count].copy_from_slice(from);
    Ok(Length { count })
}
