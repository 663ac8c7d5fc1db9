// Runs a list of tables against the library, and prints for each case a line: its name, and what the library gives.
//
// The list is text on standard input, one case a line: NAME REQUEST [NUMBERS] : WORDS. `check` asks the table layer, and
// prints `sound` with V, R, N and S; `judge` prints `accepted` with V, N, S and the transitions; `order LEN`,
// `transition K LEN` and `assignments K LEN` print `filled` with the count, and after a colon what the slice of LEN that they
// were lent holds. A refusal prints `refused` with number and place. `row LABEL` and `past LABEL` ask the table reader for the
// row with that label and for the one behind its subtree, and print `row` with label, kind, arg, end and from, or `absent`.
// Fields are parted by spaces, commas or semicolons. `#` starts a comment line; an empty line is passed over. Of a malformed
// line the column is printed where that shows.
#![tactic(auto)]

mod lent; // the requests that fill a lent slice
mod reading; // the list, read
mod requests; // the requests, and what is printed of their answers
mod scan; // fields and numbers
mod words; // the words of a table, as a line writes them
mod write; // printing

ghost use Rattle.std.specs.Prelude.{◌≤◌, length};

use reading::read_full;
use requests::Request;
use scan::{skip_gap, split_field};
use words::Words;

// The longest list, and one byte more.
const LIST: usize = 262144;

// Makes a request with the words of a body.
fn run_words(rt: &impl Print, line: &[u8], request: Request, body: &[u8])
    requires { length body.now ≤ length line.now }
{
    let mut words = Words::new();
    match words.lay_out(body) {
        Ok(()) => request.run(rt, words.laid()),
        Err(rest) => write::malformed(rt, line.len() - rest.len() + 1),
    }
}

// Runs the case of a line whose name is read; `text` is behind it. The request comes first: a line that makes none needs no room for words.
fn run_case(rt: &impl Print, line: &[u8], text: &[u8])
    requires { length text.now ≤ length line.now }
{
    let here = skip_gap(text);
    match Request::parse(here) {
        Some((request, body)) => run_words(rt, line, request, body),
        None => write::malformed(rt, line.len() - here.len() + 1),
    }
}

// Runs a line, if it is a case, and neither empty nor a comment.
fn run_line(rt: &impl Print, line: &[u8]) {
    let (name, text) = split_field(skip_gap(line));
    if matches!(name, [] | [b'#', ..]) {
        return;
    }
    write::text(rt, name);
    run_case(rt, line, text);
    write::text(rt, b"\n");
}

fn main(rt: HostRuntime) {
    let mut list = [0; LIST];
    let n = read_full(&mut rt.stdin(), &mut list);
    for line in list[..n].split(|b| *b == b'\n') {
        run_line(&rt, line);
    }
    if n == LIST {
        write::text(&rt, b"the list is too long\n");
    }
}
