// The listing of the bytes that were read, written out part after part.
ghost use Rattle.std.specs.Prelude.{◌≡◌};
ghost use Rattle.lister.specs.Listing.{listing_of};
ghost use Rattle.lister.specs.Running.{Reached};
ghost use Rattle.lister.specs.Inside.Whole.{listing_in};

use crate::lines::Listed;
use crate::output::Written;
use crate::parts::{pieces_of, put_part};
use listing::Pen;
use paper::Refusal;
use paper::limits::MOST_BYTES;

// Writes the listing of the bytes, which is that of what is listed, an accepted table or a refusal: all of it, in order, each part once,
// for as long as the writing call takes what it is given.
pub fn write_listing(rt: &impl Print, bytes: &[u8], listed: Result<Listed, Refusal>) -> Written
    requires { listing_in listed ≡ listing_of bytes.now }
    ensures { Reached (listing_of bytes.now) result }
{
    let count = pieces_of(listed);
    let mut text = [0u8; MOST_BYTES];
    let mut next = 0;
    let mut written = Written::nothing_yet();
    while next < count {
        let mut pen = Pen {
            buf: &mut text,
            at: 0,
        };
        let after = put_part(listed, next, &mut pen);
        let length = pen.at;
        written = written.write_next(rt, bytes, &text[..length]);
        if !written.is_whole() {
            return written;
        }
        next = after;
    }
    written
}
