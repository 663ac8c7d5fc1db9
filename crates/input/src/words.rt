// The words of bytes, low byte first (document 01, "The formula table").
ghost use Rattle.std.specs.Prelude.{◌/◌, ◌≤◌, length};
ghost use Rattle.input.specs.Inside.Words.{WordsIn};

// Puts the words of bytes in front; gives how many they are. By index: of what is written through
// `iter_mut` under `zip`, a proof knows nothing.
pub fn fill_words(bytes: &[u8], words: &mut [u16]) -> usize
    requires { length bytes.now / 2 ≤ length words.old }
    ensures { WordsIn bytes.now words.old words.new result }
{
    let count = bytes.len() / 2;
    for i in 0..count {
        words[i] = u16::from_le_bytes([bytes[2 * i], bytes[2 * i + 1]]);
    }
    count
}
