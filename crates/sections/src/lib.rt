// The sections of a table (document 01, "The formula table"), each handed on as the part of the words from its count word on,
// and wholly checked before the next: refusals 1, 2, 4, 5, 9 and 3, and 6 to 8 by the rows' own checks.
#![tactic(auto)]

ghost use Rattle.std.specs.Prelude.{◌≡◌, ◌*◌, ◌≤◌, length};
ghost use Rattle.sections.specs.Sections.{start, open_at, variables_at, reads_at, rows_at, strategy_at, end_at};

use entries::{first_beyond, first_fall, first_unfit};
use paper::limits::{MOST_CHOSEN, MOST_DEPTH, MOST_READS, MOST_ROWS, MOST_VARIABLES};
use paper::refusals::{Fault, refusal_for};
use paper::{Label, Refusal};
use rows::depth::first_deep;
use rows::{first_broken, reads_taken};

// Between two sections: the position of the next count word, how many entries the section before it has, and
// V, R and N once they are known. Checking a section gives the cursor behind it, or a refusal. That `at` is small is asked by each method,
// and is no invariant: behind `open` it may be more.
#[derive(Clone, Copy)]
pub struct Cursor {
    pub at: usize,
    pub count: usize,
    pub variables: usize,
    pub reads: usize,
    pub rows: usize,
}

impl Cursor {
    // Before the first section.
    pub fn new() -> Self
        ensures { result ≡ start }
    {
        Cursor {
            at: 0,
            count: 0,
            variables: 0,
            reads: 0,
            rows: 0,
        }
    }

    // The section's count and its presence.
    pub fn open(
        self,
        part: &[u16],
        low: usize,
        high: usize,
        width: usize,
    ) -> Result<Cursor, Refusal>
        requires { (self.at ≤ 65536) × (high * width ≤ 65536) }
        ensures { result ≡ open_at part.now self low high width }
    {
        let at = self.at;
        let present = part.len();
        if present == 0 {
            return Err(refusal_for(Fault::Absent, at + present));
        }
        let count = usize::from(part[0]);
        if count < low {
            return Err(refusal_for(Fault::CountOutOfRange, at));
        }
        if high < count {
            return Err(refusal_for(Fault::CountOutOfRange, at));
        }
        let words = count * width;
        if present - 1 < words {
            return Err(refusal_for(Fault::Absent, at + present));
        }
        Ok(Cursor {
            at: at + 1 + words,
            count,
            ..self
        })
    }

    // Each section's answer is taken apart by `let .. else`, and not by `?`: document 01 names that form ("one wholly checked before the
    // next").

    // Section 1: names, strictly ascending.
    pub fn variables(self, part: &[u16]) -> Result<Cursor, Refusal>
        requires { self.at ≤ 65536 }
        ensures { result ≡ variables_at part.now self }
    {
        let at = self.at;
        let opened = self.open(part, 1, MOST_VARIABLES, 1);
        let Ok(next) = opened else {
            return opened;
        };
        let n = next.count;
        let k = first_fall(&part[1..], n);
        if k < n {
            return Err(refusal_for(Fault::NameNotAbove, at + 1 + k));
        }
        Ok(Cursor {
            variables: n,
            ..next
        })
    }

    // Section 2: reads, each a variable.
    pub fn reads(self, part: &[u16]) -> Result<Cursor, Refusal>
        requires { self.at ≤ 65536 }
        ensures { result ≡ reads_at part.now self }
    {
        let at = self.at;
        let opened = self.open(part, 0, MOST_READS, 1);
        let Ok(next) = opened else {
            return opened;
        };
        let n = next.count;
        let k = first_beyond(&part[1..], n, self.variables);
        if k < n {
            return Err(refusal_for(Fault::ReadBeyond, at + 1 + k));
        }
        Ok(Cursor { reads: n, ..next })
    }

    // Section 3: rows that keep their rules, take all reads and are no deeper than 64.
    pub fn rows(self, part: &[u16], reads: &[u16]) -> Result<Cursor, Refusal>
        requires { (self.at ≤ 65536) × (length reads.now ≡ self.reads) }
        ensures { result ≡ rows_at part.now reads.now self }
    {
        let opened = self.open(part, 1, MOST_ROWS, 4);
        let Ok(next) = opened else {
            return opened;
        };
        let n = next.count as u16;
        let rows = &part[1..];
        let broken = first_broken(rows, reads, self.variables, n);
        if broken.0 < n {
            return Err(refusal_for(Fault::RowBroken, usize::from(broken.0)));
        }
        let taken = reads_taken(rows, n);
        if taken < self.reads {
            return Err(refusal_for(Fault::ReadsLeft, taken));
        }
        let deep = first_deep(rows, n, Label(0), MOST_DEPTH);
        if deep.0 < n {
            return Err(refusal_for(Fault::TooDeep, usize::from(deep.0)));
        }
        Ok(Cursor {
            rows: next.count,
            ..next
        })
    }

    // Section 4: labels of rows, strictly ascending.
    pub fn strategy(self, part: &[u16]) -> Result<Cursor, Refusal>
        requires { self.at ≤ 65536 }
        ensures { result ≡ strategy_at part.now self }
    {
        let opened = self.open(part, 0, MOST_CHOSEN, 1);
        let Ok(next) = opened else {
            return opened;
        };
        let n = next.count;
        let k = first_unfit(&part[1..], n, self.rows);
        if k < n {
            return Err(refusal_for(Fault::EntryUnfit, k));
        }
        opened
    }

    // Nothing follows.
    pub fn end(self, present: usize) -> Result<Cursor, Refusal>
        requires { self.at ≤ 65536 }
        ensures { result ≡ end_at present self }
    {
        let at = self.at;
        if at < present {
            return Err(refusal_for(Fault::WordsFollow, at));
        }
        Ok(self)
    }
}
