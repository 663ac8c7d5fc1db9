// A table reader (document 01, "A table reader that holds the lent words and its place"): the lent words and a label, for a
// browser that shows the rows of any words as a tree. Each function over the struct takes it apart and calls a function on
// the words and the number; `row_of` and `row_past` take plain parameters, for every other caller.
#![tactic(auto)]

ghost use Rattle.std.specs.Prelude.{◌≡◌};
ghost use Rattle.reader.specs.Reading.{row_at, reader_at, reader_past, row_past};

use paper::Label;
use plain::{past_at, row_at};

pub mod plain; // the same on a slice and a number

// A row: its label and its four words. Its arg is a word, since it is a variable in a candidate alone.
#[derive(Clone, Copy)]
pub struct Row {
    pub label: Label,
    pub kind: u16,
    pub arg: u16,
    pub end: Label,
    pub from: u16,
}

// The lent words and a place, which is a label: "A row's label is its position 0 to N-1."
#[derive(Clone, Copy)]
pub struct Reader<'a> {
    pub words: &'a [u16],
    pub at: usize,
}

impl<'a> Reader<'a> {
    // A reader of these words that stands at this label.
    pub fn new(words: &'a [u16], at: usize) -> Self
        ensures { result ≡ reader_at words.entry at }
    {
        Reader { words, at }
    }

    // The row where the reader stands.
    pub fn row(self) -> Option<Row>
        ensures { result ≡ row_at self.entry.words.now self.entry.at }
    {
        row_at(self.words, self.at)
    }

    // The reader behind the subtree of that row.
    pub fn past(self) -> Self
        ensures { result ≡ reader_past self.entry }
    {
        Reader {
            words: self.words,
            at: past_at(self.words, self.at),
        }
    }
}

// The row with this label.
pub fn row_of(words: &[u16], label: usize) -> Option<Row>
    ensures { result ≡ row_at words.now label }
{
    Reader::new(words, label).row()
}

// The row behind the subtree of the row with this label.
pub fn row_past(words: &[u16], label: usize) -> Option<Row>
    ensures { result ≡ row_past words.now label }
{
    Reader::new(words, label).past().row()
}
