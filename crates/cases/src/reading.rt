// What is read: a list, as much of it as there is room for. The lister has a loop like this one. No library can have it for both, since the
// contract of each of a library's functions fixes its outcome, and no contract says what a reading call gives.
ghost use Rattle.std.specs.Prelude.{◌≤◌, length};

use std::io::Read;

// Reads until there is no more room or a reading call gives nothing more, and gives how many bytes stand in front then. A call that fails
// gives nothing more.
pub fn read_full<R: Read>(input: &mut R, bytes: &mut [u8]) -> usize
    ensures { result ≤ length bytes.new }
{
    let mut count = 0;
    while count < bytes.len() {
        let more = input.read(&mut bytes[count..]).unwrap_or(0);
        if more == 0 {
            break;
        }
        count += more;
    }
    count
}
