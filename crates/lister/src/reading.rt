// What is read: at most 65,536 bytes, the first ones of a longer input (document 01, "Refusal numbers, in the order of checks"). No
// contract can say what a reading call puts into the buffer.
ghost use Rattle.std.specs.Prelude.{◌≡◌, length};
ghost use Rattle.lister.specs.Running.{ReadSo};
ghost use Rattle.paper.specs.Limits.{most_bytes};

use std::io;

// How many bytes were read, and whether a reading call gave no more of them. A pair, since `ReadSo` (`specs/Running.antt`), which a signer
// reads, says both of one value.
#[derive(Clone, Copy)]
pub struct Read {
    pub count: usize,
    pub ended: bool,
}

// Reads until the buffer is full, or a reading call gives nothing more; one that fails gives nothing more.
pub fn read_input<R: io::Read>(input: &mut R, bytes: &mut [u8]) -> Read
    requires { length bytes.old ≡ most_bytes }
    ensures { ReadSo result }
{
    let mut count = 0;
    while count < bytes.len() {
        let more = input.read(&mut bytes[count..]).unwrap_or(0);
        if more == 0 {
            return Read { count, ended: true };
        }
        count += more;
    }
    Read {
        count,
        ended: false,
    }
}
