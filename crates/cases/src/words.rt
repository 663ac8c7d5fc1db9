// The words of a table, as a line writes them: numbers, `A..B` for the numbers from A to B, and `C*( .. )` for a group that
// is repeated C times. An entry of a group is a number, or `A+D` for A + i * D in the i-th repetition, i from 0.
ghost use Rattle.std.specs.Prelude.{◌<◌, ◌≤◌, IfSome, IfErr, length};

use crate::scan::{number, skip_gap};

// Room for the words of the longest input, and for as many repetitions of a group.
const ROOM: usize = 32768;

// The word that a text begins with, and what is behind it.
fn word(text: &[u8]) -> Option<(u16, &[u8])>
    ensures { IfSome result (λ r. length r.1.now < length text.now) }
{
    let (n, rest) = number(text)?;
    Some((u16::try_from(n).ok()?, rest))
}

// The entry of a group that a text begins with, in the i-th repetition, and what is behind it.
fn entry(text: &[u8], i: u16) -> Option<(u16, &[u8])>
    ensures { IfSome result (λ r. length r.1.now < length text.now) }
{
    let (base, rest) = word(text)?;
    let Some(step) = rest.strip_prefix(b"+") else {
        return Some((base, rest));
    };
    let (step, rest) = word(step)?;
    Some((base.checked_add(step.checked_mul(i)?)?, rest))
}

// The words that are laid out so far, in front of the room for them. What makes no words, or has no room, gives nothing. A `Vec` would
// take the heap, and an `ArrayVec` is of no crate that this repository rests on.
#[derive(Drop)]
pub struct Words {
    room: [u16; ROOM],
    count: usize,
    ghost within: { count ≤ 32768 },
}

impl Words {
    // No words.
    pub fn new() -> Words {
        Words {
            room: [0; ROOM],
            count: 0,
        }
    }

    // The words.
    pub fn laid(&self) -> &[u16] {
        &self.room[..self.count]
    }

    // Puts a word.
    fn push(&mut self, word: u16) -> Option<()> {
        *self.room.get_mut(self.count)? = word;
        self.count += 1;
        Some(())
    }

    // Puts the words from the first to the last, one at least, if there is room for all.
    fn push_range(&mut self, first: u16, last: u16) -> Option<()> {
        if last < first {
            return None;
        }
        let count = self.count;
        let more = usize::from(last - first) + 1;
        if ROOM - count < more {
            return None;
        }
        for i in 0..more {
            self.room[count + i] = first + i as u16;
        }
        self.count = count + more;
        Some(())
    }

    // Puts the entries of a group up to its closing sign, in its i-th repetition; gives what is behind the group.
    fn push_entries<'a>(&mut self, text: &'a [u8], i: u16) -> Option<&'a [u8]>
        ensures { IfSome result (λ r. length r.now < length text.now) }
    {
        let mut here = skip_gap(text);
        loop {
            if let Some(rest) = here.strip_prefix(b")") {
                return Some(rest);
            }
            let (word, rest) = entry(here, i)?;
            self.push(word)?;
            here = skip_gap(rest);
        }
    }

    // Puts a group whose entries a text begins with, repeated so many times, once at least; gives what is behind it.
    fn push_group<'a>(&mut self, text: &'a [u8], times: u16) -> Option<&'a [u8]>
        ensures { IfSome result (λ r. length r.now < length text.now) }
    {
        if ROOM < usize::from(times) {
            return None;
        }
        let mut behind = None;
        for i in 0..times {
            behind = Some(self.push_entries(text, i)?);
        }
        behind
    }

    // Puts the item that a text begins with: a group, the numbers from one to another, or a number; gives what is behind it.
    fn push_item<'a>(&mut self, text: &'a [u8]) -> Option<&'a [u8]>
        ensures { IfSome result (λ r. length r.now < length text.now) }
    {
        let (first, rest) = word(text)?;
        if let Some(group) = rest.strip_prefix(b"*(") {
            return self.push_group(group, first);
        }
        let Some(last) = rest.strip_prefix(b"..") else {
            self.push(first)?;
            return Some(rest);
        };
        let (last, rest) = word(last)?;
        self.push_range(first, last)?;
        Some(rest)
    }

    // Lays out all words of a text; where not all of it makes words, gives what does not.
    pub fn lay_out<'a>(&mut self, text: &'a [u8]) -> Result<(), &'a [u8]>
        ensures { IfErr result (λ r. length r.now ≤ length text.now) }
    {
        let mut here = skip_gap(text);
        while !here.is_empty() {
            let Some(rest) = self.push_item(here) else {
                return Err(here);
            };
            here = skip_gap(rest);
        }
        Ok(())
    }
}
