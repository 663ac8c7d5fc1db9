// The rows of any words, by the counts and the presence of sections 1 to 3 alone: a row is found whether or not it keeps
// its rules.
ghost use Rattle.std.specs.Prelude.{◌≡◌};
ghost use Rattle.reader.specs.Reading.{behind_rows, row_at, past_at};

use crate::Row;
use paper::limits::{MOST_READS, MOST_ROWS, MOST_VARIABLES};
use paper::{Label, Refusal};
use rows::{arg_of, end_of, from_of, kind_of};
use sections::Cursor;

// The cursor behind the rows, or the refusal, 1 or 2, of a count.
pub fn behind_rows(words: &[u16]) -> Result<Cursor, Refusal>
    ensures { result ≡ behind_rows words.now }
{
    let one = Cursor::new().open(words, 1, MOST_VARIABLES, 1)?;
    let a = one.at;
    let two = one.open(&words[a..], 0, MOST_READS, 1)?;
    let b = two.at;
    two.open(&words[b..], 1, MOST_ROWS, 4)
}

// The row with this label, where there is one.
pub fn row_at(words: &[u16], label: usize) -> Option<Row>
    ensures { result ≡ row_at words.now label }
{
    let Ok(c) = behind_rows(words) else {
        return None;
    };
    let n = c.count;
    if n <= label {
        return None;
    }
    let first = c.at - 4 * n;
    let rows = &words[first..];
    let i = Label(label as u16);
    Some(Row {
        label: i,
        kind: kind_of(rows, i),
        arg: arg_of(rows, i),
        end: end_of(rows, i),
        from: from_of(rows, i),
    })
}

// The label behind the subtree of a row: its end, or the next label where the end is not behind the row. Where there is no
// row it is the label that was asked.
pub fn past_at(words: &[u16], label: usize) -> usize
    ensures { result ≡ past_at words.now label }
{
    let Some(row) = row_at(words, label) else {
        return label;
    };
    let end = usize::from(row.end.0);
    if label < end { end } else { label + 1 }
}
