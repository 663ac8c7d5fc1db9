// What a text begins with: a gap between two fields, a field, or a number; and what is behind it.
ghost use Rattle.std.specs.Prelude.{◌<◌, ◌≤◌, IfSome, length};

// Whether a byte parts two fields.
fn is_gap(b: u8) -> bool {
    matches!(b, b' ' | b',' | b';')
}

// The text from its next field on.
pub fn skip_gap(text: &[u8]) -> &[u8]
    ensures { length result.now ≤ length text.now }
{
    let gap = text.iter().position(|b| !is_gap(*b));
    &text[gap.unwrap_or(text.len())..]
}

// The field that a text begins with, and what is behind it.
pub fn split_field(text: &[u8]) -> (&[u8], &[u8])
    ensures { length result.1.now ≤ length text.now }
{
    let field = text.iter().position(|b| is_gap(*b));
    text.split_at(field.unwrap_or(text.len()))
}

// The number that a text begins with, all its digits, and what is behind it; none where there are no digits or they do not fit. Digit by
// digit: by the library they are read three times, for their end, as text and as a number, and numbers are most of a list.
pub fn number(text: &[u8]) -> Option<(usize, &[u8])>
    ensures { IfSome result (λ r. length r.1.now < length text.now) }
{
    let mut n: usize = 0;
    let mut rest = text;
    while let [digit @ b'0'..=b'9', more @ ..] = rest {
        n = n.checked_mul(10)?.checked_add(usize::from(digit - b'0'))?;
        rest = more;
    }
    if rest.len() == text.len() {
        return None;
    }
    Some((n, rest))
}

// The next number and what is behind it; where what comes next is none, that stands behind.
pub fn next_number(text: &[u8]) -> (Option<usize>, &[u8])
    ensures { length result.1.now ≤ length text.now }
{
    let here = skip_gap(text);
    match number(here) {
        Some((n, rest)) => (Some(n), rest),
        None => (None, here),
    }
}
