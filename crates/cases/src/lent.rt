// The requests that fill a lent slice. The slice is the start of a longer array that is filled beforehand; all of it is
// printed afterwards, with eight words or bytes more, a run of n equal ones as n*VALUE.
use crate::write;
use filling::Length;
use paper::Refusal;
use std::fmt::Display;

// The longest slice that is lent.
pub const ROOM: usize = 4096;

// Words or bytes to lend from: that many, and eight more.
const LENT: usize = ROOM + 8;

// The order, in a slice of so many words.
pub fn order(rt: &impl Print, words: &[u16], len: usize) {
    lend(
        rt,
        [u16::MAX; LENT],
        len,
        |out| nocturenc::requests::order(words, out),
    );
}

// The assignments of transition k, in a slice of so many words.
pub fn assignments(rt: &impl Print, words: &[u16], k: usize, len: usize) {
    lend(
        rt,
        [u16::MAX; LENT],
        len,
        |out| nocturenc::requests::assignments(words, k, out),
    );
}

// The kept labels of transition k, in a slice of so many bytes.
pub fn transition(rt: &impl Print, words: &[u16], k: usize, len: usize) {
    lend(
        rt,
        [u8::MAX; LENT],
        len,
        |out| nocturenc::requests::transition(words, k, out),
    );
}

// Lends so many to a request, and prints its answer and what is there then.
fn lend<T: Display + PartialEq + Copy, F: FnOnce(&mut [T]) -> Result<Length, Refusal>>(
    rt: &impl Print,
    mut from: [T; LENT],
    len: usize,
    request: F,
)
    requires { F.IsAlwaysCallable request }
{
    let n = len.min(ROOM);
    filled(rt, request(&mut from[..n]));
    write::text(rt, b" :");
    runs(rt, &from[..n + 8]);
}

// How many were filled, or the refusal.
fn filled(rt: &impl Print, answer: Result<Length, Refusal>) {
    match answer {
        Ok(n) => {
            let _ = print!(rt; " filled {}", n.count);
        }
        Err(r) => write::refusal(rt, r),
    }
}

// Prints words or bytes by runs of equal ones.
fn runs<T: Display + PartialEq>(rt: &impl Print, all: &[T]) {
    for run in all.chunk_by(|a, b| a == b) {
        let _ = match run {
            [] => Ok(()),
            [one] => print!(rt; " {one}"),
            [one, ..] => print!(rt; " {}*{one}", run.len()),
        };
    }
}
