// The words of a table (document 01, "The formula table"): its sections, one after another, and where they lie in words that
// passed.
#![tactic(auto)]

ghost use Rattle.std.specs.Prelude.{◌≡◌, ◌≤◌};
ghost use Rattle.table.specs.Table.{sections, layout, checked};
ghost use Rattle.paper.specs.Limits.{most_reads, most_rows, most_variables};

use paper::Refusal;
use sections::Cursor;

// What sound words hold: the counts V, R, N and S, and the positions of the first read, the first row and the first
// chosen label. The names begin at word 1. Positions, and no slices: what `check` answers outlives the loan.
#[derive(Clone, Copy)]
pub struct Layout {
    pub variables: usize,
    pub reads: usize,
    pub rows: usize,
    pub chosen: usize,
    pub reads_at: usize,
    pub rows_at: usize,
    pub chosen_at: usize,
}

// All sections, each handed on from its first word. Document 01 names `let .. else` for it ("one wholly checked before the next").
fn sections(words: &[u16]) -> Result<Cursor, Refusal>
    ensures { result ≡ sections words.now }
{
    let start = Cursor::new();
    let first = start.variables(words);
    let Ok(one) = first else {
        return first;
    };
    let a = one.at;
    let second = one.reads(&words[a..]);
    let Ok(two) = second else {
        return second;
    };
    let b = two.at;
    let third = two.rows(&words[b..], &words[a + 1..b]);
    let Ok(three) = third else {
        return third;
    };
    let c = three.at;
    let fourth = three.strategy(&words[c..]);
    let Ok(four) = fourth else {
        return fourth;
    };
    four.end(words.len())
}

// What the last cursor found, with the positions that follow from it.
fn laid_out(c: Cursor) -> Layout
    requires { (c.variables ≤ most_variables) × (c.reads ≤ most_reads) × (c.rows ≤ most_rows) }
    ensures { result ≡ layout c.variables c.reads c.rows c.count }
{
    Layout {
        variables: c.variables,
        reads: c.reads,
        rows: c.rows,
        chosen: c.count,
        reads_at: c.variables + 2,
        rows_at: c.variables + c.reads + 3,
        chosen_at: c.variables + c.reads + 4 * c.rows + 4,
    }
}

// What any words are found to be: sound, or refused.
pub fn check(words: &[u16]) -> Result<Layout, Refusal>
    ensures { result ≡ checked words.now }
{
    let found = sections(words)?;
    Ok(laid_out(found))
}
