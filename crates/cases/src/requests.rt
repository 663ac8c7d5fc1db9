// The requests that a case can make of the library, and what is printed of their answers.
ghost use Rattle.std.specs.Prelude.{◌≤◌, IfSome, length};

use crate::scan::{next_number, skip_gap, split_field};
use crate::{lent, write};
use reader::Row;

// A request, with its numbers.
#[derive(Clone, Copy, PartialEq, Eq)]
pub enum Request {
    Check,
    Judge,
    Order { len: usize },
    Transition { k: usize, len: usize },
    Assignments { k: usize, len: usize },
    Row { label: usize },
    Past { label: usize },
}

impl Request {
    // The request of this name with these numbers. There is none of another name or with other numbers, nor one that would lend more
    // than there is.
    fn named(name: &[u8], first: Option<usize>, second: Option<usize>) -> Option<Request> {
        match (name, first, second) {
            (b"check", None, None) => Some(Request::Check),
            (b"judge", None, None) => Some(Request::Judge),
            (b"order", Some(len), None) if len <= lent::ROOM => Some(Request::Order { len }),
            (b"transition", Some(k), Some(len)) if len <= lent::ROOM => Some(Request::Transition {
                k,
                len,
            }),
            (b"assignments", Some(k), Some(len)) if len <= lent::ROOM => Some(Request::Assignments {
                k,
                len,
            }),
            (b"row", Some(label), None) => Some(Request::Row { label }),
            (b"past", Some(label), None) => Some(Request::Past { label }),
            _ => None,
        }
    }

    // The request that a text begins with, its numbers and a colon, and what is behind them.
    pub fn parse(text: &[u8]) -> Option<(Request, &[u8])>
        ensures { IfSome result (λ r. length r.1.now ≤ length text.now) }
    {
        let (name, rest) = split_field(text);
        let (first, rest) = next_number(rest);
        let (second, rest) = next_number(rest);
        let words = skip_gap(rest).strip_prefix(b":")?;
        Some((Request::named(name, first, second)?, words))
    }

    // Makes the request of the library, and prints what it gives.
    pub fn run(self, rt: &impl Print, words: &[u16]) {
        match self {
            Request::Check => check(rt, words),
            Request::Judge => judge(rt, words),
            Request::Order { len } => lent::order(rt, words, len),
            Request::Transition { k, len } => lent::transition(rt, words, k, len),
            Request::Assignments { k, len } => lent::assignments(rt, words, k, len),
            Request::Row { label } => row(rt, reader::row_of(words, label)),
            Request::Past { label } => row(rt, reader::row_past(words, label)),
        }
    }
}

// What the table layer says of the words.
fn check(rt: &impl Print, words: &[u16]) {
    match table::check(words) {
        Ok(l) => {
            let _ = print!(rt;
                " sound {} {} {} {}",
                l.variables, l.reads, l.rows, l.chosen
            );
        }
        Err(r) => write::refusal(rt, r),
    }
}

// What judge says of the words.
fn judge(rt: &impl Print, words: &[u16]) {
    match nocturenc::requests::judge(words) {
        Ok(c) => {
            let _ = print!(rt;
                " accepted {} {} {} {}",
                c.variables, c.rows, c.chosen, c.transitions
            );
        }
        Err(r) => write::refusal(rt, r),
    }
}

// What the table reader finds.
fn row(rt: &impl Print, found: Option<Row>) {
    match found {
        Some(r) => {
            let _ = print!(rt;
                " row {} {} {} {} {}",
                r.label.0, r.kind, r.arg, r.end.0, r.from
            );
        }
        None => write::text(rt, b" absent"),
    }
}
