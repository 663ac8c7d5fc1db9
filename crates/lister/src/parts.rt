// The parts of a listing, put by a pen: the first one, and then the lines of the transitions, as many at a time as surely fit.
// A listing is taken for a row of pieces: piece 0 is the first part, and piece k + 1 the line of transition k.
ghost use Rattle.std.specs.Prelude.{◌≡◌, ◌<◌, Ok};
ghost use Rattle.lister.specs.Inside.Steps.{pieces, Fresh, PartPut};
ghost use Rattle.lister.specs.Inside.Whole.{words_in, judged_in};

use crate::lines::Listed;
use listing::Pen;
use paper::Refusal;

// How many pieces the listing has.
pub fn pieces_of(listed: Result<Listed, Refusal>) -> usize
    ensures { result ≡ pieces (judged_in listed.entry) }
{
    match listed {
        Ok(listed) => listed.basis.table.accepted.transitions + 1,
        Err(_) => 1,
    }
}

// The part of an accepted table's listing that begins with piece `next`; gives the piece that comes after it. The pieces are counted, as
// `PartPut` has them: the head is the first.
fn put_accepted_part(listed: &Listed, next: usize, pen: &mut Pen) -> usize
    requires { (next < pieces (Ok listed.now.basis.now.table.accepted)) × Fresh pen.old }
    ensures { PartPut listed.now.basis.now.table.words.now (Ok listed.now.basis.now.table.accepted) next pen.old pen.new result }
{
    if next == 0 {
        listed.put_head(pen);
        return 1;
    }
    next + listed.put_lines(next - 1, pen)
}

// The part of the listing that begins with piece `next`; gives the piece that comes after it.
pub fn put_part(listed: Result<Listed, Refusal>, next: usize, pen: &mut Pen) -> usize
    requires { (next < pieces (judged_in listed)) × Fresh pen.old }
    ensures { PartPut (words_in listed.entry) (judged_in listed.entry) next pen.old pen.new result }
{
    match listed {
        Ok(listed) => put_accepted_part(&listed, next, pen),
        Err(r) => {
            pen.refused(u8::from(r.fault), r.place);
            1
        }
    }
}
