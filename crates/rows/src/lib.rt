// The rows of a table: their words, and the rules of refusals 6 and 7; below it depth and the walk over expressions. The rows
// are handed on from the first row's kind word; what follows the last row may be anything.
#![tactic(auto)]

ghost use Rattle.std.specs.Prelude.{◌≡◌, ◌+◌, ◌*◌, ◌≤◌, ◌<◌, length};
ghost use Rattle.paper.specs.Formula.{ℓ};
ghost use Rattle.entries.specs.First.{first};
ghost use Rattle.rows.specs.Rows.{kind_of, arg_of, end_of, from_of, form_of, meets, takes, taken_before, guarded};
ghost use Rattle.rows.specs.Rows.{false_rule, star_rule, candidate_rule, join_rule, bound_rule, keeps_form, ends_within, keeps_rules, breaks_rules};
ghost use Rattle.rows.specs.Inside.Looks.{InRows};
ghost use Rattle.paper.specs.Limits.{most_rows};

pub mod depth; // how deep rows lie: refusal 8
pub mod form; // the form that a row's kind word names
pub mod walk; // the expressions under a row, for the walks of the layers above

use entries::are_ascending;
use form::{Form, form_of};
use paper::{Label, Variable};

// The four words of a row are read apart: the layers above hold lent words and a label, and mostly want one word of a row.
// The kind word of a row.
pub fn kind_of(rows: &[u16], at: Label) -> u16
    requires { 4 * at.0 + 4 ≤ length rows.now }
    ensures { result ≡ kind_of rows.now at.0 }
{
    let i = usize::from(at.0);
    rows[4 * i]
}

// The arg word of a row.
pub fn arg_of(rows: &[u16], at: Label) -> u16
    requires { 4 * at.0 + 4 ≤ length rows.now }
    ensures { result ≡ arg_of rows.now at.0 }
{
    let i = usize::from(at.0);
    rows[4 * i + 1]
}

// The label one past a row's subtree.
pub fn end_of(rows: &[u16], at: Label) -> Label
    requires { 4 * at.0 + 4 ≤ length rows.now }
    ensures { result ≡ ℓ (end_of rows.now at.0) }
{
    let i = usize::from(at.0);
    Label(rows[4 * i + 2])
}

// The number of reads taken before a row.
pub fn from_of(rows: &[u16], at: Label) -> u16
    requires { 4 * at.0 + 4 ≤ length rows.now }
    ensures { result ≡ from_of rows.now at.0 }
{
    let i = usize::from(at.0);
    rows[4 * i + 3]
}

// A row whose end is known to lie within the words, and what its kind may ask of it.
#[derive(Clone, Copy)]
struct Row<'a> {
    rows: &'a [u16],
    at: Label,
    end: Label,
    ghost there: { 4 * at.0 + 4 ≤ length rows.now },
    ghost few: { at.0 < most_rows },
    ghost ends: { end.0 ≡ end_of rows.now at.0 },
    ghost within: { 4 * end.0 ≤ length rows.now },
}

impl Row<'_> {
    // Whether m children, from the next row on, meet the row's end: each end rises, and none passes it.
    fn children_meet(self, m: u16) -> bool
        ensures { result ≡ meets self.entry.rows.now self.entry.end.0 (self.entry.at.0 + 1) m }
    {
        let mut here = Label(self.at.0 + 1);
        for _i in 0..m {
            if self.end.0 <= here.0 {
                return false;
            }
            let next = end_of(self.rows, here);
            if next.0 <= here.0 {
                return false;
            }
            if self.end.0 < next.0 {
                return false;
            }
            here = next;
        }
        here.0 == self.end.0
    }

    // Whether the row has m children, of which the first is a star.
    fn guard_meets(self, m: u16) -> bool
        requires { 0 < m }
        ensures { result ≡ guarded self.entry.rows.now self.entry.at.0 m }
    {
        let first = Label(self.at.0 + 1);
        if self.end.0 <= first.0 {
            return false;
        }
        form_of(self.rows, first) == Form::Star && self.children_meet(m)
    }

    // Whether a FALSE row keeps its rule.
    fn keeps_false(self) -> bool
        ensures { result ≡ false_rule self.entry.rows.now self.entry.at.0 }
    {
        arg_of(self.rows, self.at) == 0 && self.end.0 == self.at.0 + 1
    }

    // Whether a star keeps its rule.
    fn keeps_star(self, reads: &[u16]) -> bool
        requires { from_of self.rows.now self.at.0 ≤ length reads.now }
        ensures { result ≡ star_rule self.entry.rows.now reads.now self.entry.at.0 }
    {
        let from = usize::from(from_of(self.rows, self.at));
        let taken = usize::from(arg_of(self.rows, self.at));
        self.end.0 == self.at.0 + 1 && are_ascending(&reads[from..], taken)
    }

    // Whether a candidate keeps its rule: its arg is a variable.
    fn keeps_candidate(self, variables: usize) -> bool
        ensures { result ≡ candidate_rule self.entry.rows.now variables self.entry.at.0 }
    {
        let v = Variable(arg_of(self.rows, self.at));
        usize::from(v.0) < variables && self.guard_meets(1)
    }

    // Whether a conjunction or disjunction keeps its rule.
    fn keeps_join(self) -> bool
        ensures { result ≡ join_rule self.entry.rows.now self.entry.at.0 }
    {
        let children = arg_of(self.rows, self.at);
        0 < children && self.children_meet(children)
    }

    // Whether an exists row, of m = 2 children, or an IF row, of 3, keeps its rule.
    fn keeps_bound(self, m: u16) -> bool
        requires { 0 < m }
        ensures { result ≡ bound_rule self.entry.rows.now self.entry.at.0 m }
    {
        arg_of(self.rows, self.at) == 0 && self.guard_meets(m)
    }

    // Whether the row keeps the rule of its kind.
    fn keeps_kind(self, reads: &[u16], variables: usize) -> bool
        requires { from_of self.rows.now self.at.0 ≤ length reads.now }
        ensures { result ≡ keeps_form self.entry.rows.now reads.now variables self.entry.at.0 (form_of (kind_of self.entry.rows.now self.entry.at.0)) }
    {
        // document 01 asks for the kind word itself here, and a range arm that refuses
        let kind = kind_of(self.rows, self.at);
        match kind {
            0 => self.keeps_false(),
            1 => self.keeps_star(reads),
            2 => self.keeps_candidate(variables),
            3..=4 => self.keeps_join(),
            5 => self.keeps_bound(2),
            6 => self.keeps_bound(3),
            7..=65535 => false,
        }
    }
}

// Whether a row's end is within the n rows; row 0 ends at n.
fn ends_within(n: u16, at: Label, end: Label) -> bool
    ensures { result ≡ ends_within n at.0 end.0 }
{
    if at.0 == 0 {
        return end.0 == n;
    }
    end.0 <= n
}

// Whether a row keeps its rules, where the stars before it take `taken` reads. Six parameters: what the rules are about; the row's own
// words are in `Row`.
fn keeps_rules(
    rows: &[u16],
    reads: &[u16],
    variables: usize,
    n: u16,
    at: Label,
    taken: usize,
) -> bool
    requires { InRows rows.now n at.0 × (taken ≡ taken_before rows.now at.0) × (taken ≤ length reads.now) }
    ensures { result ≡ keeps_rules rows.now reads.now variables n at.0 }
{
    let end = end_of(rows, at);
    if !ends_within(n, at, end) {
        return false;
    }
    if usize::from(from_of(rows, at)) != taken {
        return false;
    }
    Row { rows, at, end }.keeps_kind(reads, variables)
}

// How many reads a row takes: a star its arg, any other none.
fn taken_by(rows: &[u16], at: Label) -> usize
    requires { 4 * at.0 + 4 ≤ length rows.now }
    ensures { result ≡ takes (form_of (kind_of rows.now at.0)) (arg_of rows.now at.0) }
{
    if form_of(rows, at) == Form::Star {
        return usize::from(arg_of(rows, at));
    }
    0
}

// The lowest of n rows that breaks its rules, or n, as `first` has it.
pub fn first_broken(rows: &[u16], reads: &[u16], variables: usize, n: u16) -> Label
    requires { (4 * n ≤ length rows.now) × (n ≤ most_rows) }
    ensures { result.0 ≡ first (breaks_rules rows.now reads.now variables n) n }
{
    let mut taken: usize = 0;
    for i in 0..n {
        if !keeps_rules(rows, reads, variables, n, Label(i), taken) {
            return Label(i);
        }
        taken += taken_by(rows, Label(i));
    }
    Label(n)
}

// The number of reads that the stars of n rows take.
pub fn reads_taken(rows: &[u16], n: u16) -> usize
    requires { (4 * n ≤ length rows.now) × (n ≤ most_rows) }
    ensures { result ≡ taken_before rows.now n }
{
    let mut taken: usize = 0;
    for i in 0..n {
        taken += taken_by(rows, Label(i));
    }
    taken
}
