//! Lists of bits in a word: bit i of the word is that of place i, and all others are zero.

ghost use Rattle.std.specs.Prelude.{◌≡◌, ℕ, ◌<◌, ◌≤◌, ◌==◌, Bool, List, length, slice_set};
ghost use Rattle.std.specs.Int.{bit_at};
ghost use Rattle.four_state.specs.Words.{word_of};

/// The word of these bits.
pub fn packed(bits: &[bool]) -> u64
    requires { length bits.now ≤ 64 }
    ensures { result ≡ word_of bits.now }
{
    let mut word = 0;
    for i in 0..bits.len() {
        word |= (bits[i] as u64) << i;
    }
    word
}

/// Whether the bit at a place is set.
pub fn is_set(word: u64, place: usize) -> bool
    requires { place < 64 }
    ensures { result ≡ (bit_at word place == 1) }
{
    (word >> place) & 1 == 1
}

/// The word with the bit at a place set or cleared.
pub fn with_bit(word: u64, place: usize, bit: bool) -> u64
    requires { place < 64 }
    ensures { (bits : List Bool) → length bits ≤ 64 → place < length bits
        → word ≡ word_of bits → result ≡ word_of (slice_set bits place bit) }
{
    if bit {
        word | (1 << place)
    } else {
        word & !(1 << place)
    }
}
