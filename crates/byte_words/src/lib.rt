// byte_words: eight bytes as one word, and whether rows of bytes share a bit, asked by the word.
// Place: the foundation.
// Specs (inner): the number of n bytes, the words of 64 bytes, bits that two rows share (ByteWord).
// Proves: a word is the number of its bytes; each test by the word says what the test of every byte says, by one law over the width (proofs/Words
// `word_and`: the `and` of two words is 0 exactly if the `and` of every two of their bytes is).
// Assumes nothing.
#![tactic(auto)]

ghost use Rattle.std.specs.Prelude.{◌≡◌, ℕ, ◌+◌, ◌*◌, ◌%◌, ◌^◌, ◌≤◌, ◌<◌, not, length};
ghost use Rattle.loops.specs.Iter.{some_in};
ghost use Rattle.byte_words.specs.ByteWord.{byte_in, word_of, words_of, Bytes, has_bit, both_have};

use std::array;

// The eight bytes from `at` on as a word, the first counting least. (The compiler makes one read of it.)
pub fn word_at(bytes: &[u8], at: usize) -> u64
    requires { at + 8 ≤ length bytes.now }
    ensures { result ≡ word_of (byte_in bytes.now) at 8 }
{
    u64::from_le_bytes([
        bytes[at],
        bytes[at + 1],
        bytes[at + 2],
        bytes[at + 3],
        bytes[at + 4],
        bytes[at + 5],
        bytes[at + 6],
        bytes[at + 7],
    ])
}

// The first n bytes of a word, n below 8; the others are cut off.
fn first_bytes(word: u64, n: usize) -> u64
    requires { n < 8 }
    ensures { result ≡ word % 2 ^ (n * 8) }
{
    word % (1u64 << (n * 8))
}

// Do the first n of 64 bytes and of 64 others share a bit? Word by word. The last word need not be whole: where it has a bit that both have, the
// bytes past the n are cut off; where it has none, none of its bytes has.
pub fn share_bit(a: [u8; 64], b: [u8; 64], n: usize) -> bool
    requires { n ≤ 64 }
    ensures { result ≡ some_in (both_have (byte_in a) (byte_in b)) 0 n }
{
    let mut from = 0;
    while from < n {
        let shared = word_at(&a, from) & word_at(&b, from);
        if shared != 0 {
            return 8 <= n - from || first_bytes(shared, n - from) != 0;
        }
        from += 8;
    }
    false
}

// The words of 64 bytes.
pub fn words_of(bytes: [u8; 64]) -> [u64; 8]
    ensures { result ≡ words_of (byte_in bytes) }
{
    array::from_fn(|i| word_at(&bytes, i * 8))
}

// Do the 64 bytes from `at` on share a bit with these words?
pub fn row_shares(bytes: &[u8], at: usize, words: [u64; 8]) -> bool
    requires { at + 64 ≤ length bytes.now }
    ensures { (g : ℕ → ℕ) → Bytes g → words ≡ words_of g
        → result ≡ some_in (both_have (λ i. byte_in bytes.now (at + i)) g) 0 64 }
{
    let mut shared: u64 = 0;
    for w in 0..8 {
        shared |= word_at(bytes, at + w * 8) & words[w];
    }
    shared != 0
}

// Is no bit set in these words?
pub fn no_bit(words: [u64; 8]) -> bool
    ensures { (g : ℕ → ℕ) → words ≡ words_of g → result ≡ not (some_in (has_bit g) 0 64) }
{
    words.iter().fold(0, |all, word| all | *word) == 0
}
