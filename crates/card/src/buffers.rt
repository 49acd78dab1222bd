// Bytes in which words lie, nine bytes each, lowest first.
ghost use Rattle.std.specs.Prelude.{◌≡◌, ℕ, ◌+◌, ◌≤◌, List, length};
ghost use Rattle.word.specs.Words.{value, of_value};
ghost use Rattle.card.specs.Buffers.{loaded, stored, put_word};

use word::{Word, join_lanes, lanes_of};

// How many bytes hold a word.
pub(crate) const WORD_BYTES: usize = 9;

// What a byte card works on. The loan tells one buffer from another: it stays the same while the bytes change.
pub trait Buffer {
    ghost held: { Self → List ℕ };

    ghost loan: { Self → ℕ };

    fn bytes(&self) -> &[u8]
        ensures { result.now ≡ held self.now };

    // Writes a word to the nine bytes from `at` on, if there are nine.
    fn put(&mut self, at: usize, word: Word)
        ensures bytes { held self.new ≡ put_word (held self.old) at (value word) }
        ensures same { loan self.new ≡ loan self.old };
}

// A slice that the caller lends, and has back with what it then holds.
impl<'a> Buffer for &'a mut [u8] {
    ghost held = { λ b. b.now };

    ghost loan = { λ b. b.ghost_name };

    fn bytes(&self) -> &[u8] {
        self
    }

    fn put(&mut self, at: usize, word: Word) {
        if at < self.len() && self.len() - at >= WORD_BYTES {
            store(self, at, word);
        }
    }
}

// The word in the nine bytes from `at` on.
pub(crate) fn load(bytes: &[u8], at: usize) -> Word
    requires { at + 9 ≤ length bytes.now }
    ensures { result ≡ of_value (loaded bytes.now at) }
{
    let mut low = [0u8; 8];
    low.copy_from_slice(&bytes[at..at + 8]);
    Word {
        low: join_lanes(low),
        top: bytes[at + 8],
    }
}

// Writes a word to the nine bytes from `at` on.
fn store(bytes: &mut [u8], at: usize, word: Word)
    requires { at + 9 ≤ length bytes.old }
    ensures { bytes.new ≡ stored bytes.old at (value word) }
{
    bytes[at..at + 8].copy_from_slice(&lanes_of(word.low));
    bytes[at + 8] = word.top;
}
