// The lister: reads a table on standard input, and prints its listing or one line of a refusal (document 01, "A listing, whole").
#![tactic(auto)]

mod lines; // the lines of the transitions, put into a lent buffer
mod output; // the one call that writes
mod parts; // the parts of a listing, put into a lent buffer one after another
mod reading; // what is read
mod writing; // the parts of a listing, written out one after another

ghost use Rattle.std.specs.Prelude.{◌≡◌, ◌≤◌, length};
ghost use Rattle.lister.specs.Listing.{listing_of};
ghost use Rattle.lister.specs.Running.{Reached, RanSo};
ghost use Rattle.paper.specs.Limits.{most_bytes};

use answers::judged::AcceptedTable;
use input::judging::judge_bytes;
use input::words::fill_words;
use lines::Listed;
use output::Written;
use paper::limits::{MOST_BYTES, SLOTS};
use reading::{Read, read_input};
use std::io;
use writing::write_listing;

// What was read, and how far its listing was written.
#[derive(Clone, Copy)]
struct Ran {
    read: Read,
    written: Written,
}

// Lists the table that bytes write.
fn list(rt: &impl Print, bytes: &[u8]) -> Written
    requires { length bytes.now ≤ most_bytes }
    ensures { Reached (listing_of bytes.now) result }
{
    let mut buffer = [0u16; MOST_BYTES / 2];
    let count = fill_words(bytes, &mut buffer);
    let words = &buffer[..count];
    let mut order = [0u16; SLOTS];
    let judged = judge_bytes(bytes, words, &mut order);
    match judged {
        Ok(accepted) => {
            let table = AcceptedTable { words, accepted };
            let basis = table.basis();
            let listed = Listed {
                basis: &basis,
                order: &order,
            };
            write_listing(rt, bytes, Ok(listed))
        }
        Err(r) => write_listing(rt, bytes, Err(r)),
    }
}

// Reads a table into `bytes`, and lists it.
fn run<R: io::Read>(rt: &impl Print, input: &mut R, bytes: &mut [u8]) -> Ran
    requires { length bytes.old ≡ most_bytes }
    ensures { RanSo bytes.new result }
{
    let read = read_input(input, bytes);
    let count = read.count;
    let written = list(rt, &bytes[..count]);
    Ran { read, written }
}

fn main(rt: HostRuntime) {
    let mut bytes = [0u8; MOST_BYTES];
    run(&rt, &mut rt.stdin(), &mut bytes);
}
