// The form of a row, as its kind word names it.
ghost use Rattle.std.specs.Prelude.{◌≡◌, ◌+◌, ◌*◌, ◌≤◌, length};
ghost use Rattle.rows.specs.Rows.{kind_of, form_of};

use crate::kind_of;
use paper::Label;

// The forms of document 001, and one for a kind word that names none of them.
#[derive(Clone, Copy, PartialEq, Eq)]
pub enum Form {
    False,
    Star,
    Candidate,
    Conjunction,
    Disjunction,
    Exists,
    If,
    Unknown,
}

// The form of a row: the one place where a kind word becomes a form.
pub fn form_of(rows: &[u16], at: Label) -> Form
    requires { 4 * at.0 + 4 ≤ length rows.now }
    ensures { result ≡ form_of (kind_of rows.now at.0) }
{
    let kind = kind_of(rows, at);
    match kind {
        0 => Form::False,
        1 => Form::Star,
        2 => Form::Candidate,
        3 => Form::Conjunction,
        4 => Form::Disjunction,
        5 => Form::Exists,
        6 => Form::If,
        7..=65535 => Form::Unknown,
    }
}
