//! Numbers and bits as a script writes them.
ghost use Rattle.std.specs.Prelude.{◌≡◌, ◌↔◌, ◌<◌, ◌≤◌, ◌^◌, ◌⊎◌, All, IsTrue, IfSome, SomeIff};
ghost use Rattle.std.specs.Prelude.{is_some, length, take};
ghost use Rattle.std.specs.Str.Parse.{IsNumeral, digits_value};
ghost use Rattle.text_grammar.specs.Script.{bits_written, is_bit_text};

/// The number that a word writes in decimal digits, if it is one and below 2^64. Any count of
/// leading zeros is a number, and no sign is.
pub fn read_number(word: &[u8]) -> Option<u64>
    ensures { SomeIff result (IsNumeral 10 word.now
        × (digits_value 10 word.now < 2 ^ 64)) (digits_value 10 word.now) }
{
    if word.first() == Some(&b'+') {
        return None;
    }
    match std::str::from_utf8(word) {
        Ok(text) => text.parse::<u64>().ok(),
        Err(_) => None,
    }
}

/// Bits as a word writes them, in the characters `0` and `1`.
// They stay where they stand in their line: a command that had them itself would be copied with
// them on its way.
#[derive(Clone, Copy, Debug)]
pub struct Bits<'a> {
    word: &'a [u8],
}

impl<'a> Bits<'a> {
    ghost use Rattle.text_grammar.specs.Bits.{bits_of, kept_of};

    /// The bits that a word writes, if it has one character or more, and each is `0` or `1`.
    pub fn read(word: &'a [u8]) -> Option<Bits<'a>>
        ensures some { is_some result ≡ is_bit_text word.now }
        ensures value { IfSome result (λ bits. bits_of bits ≡ bits_written word.now) }
    {
        if !has_bits_alone(word) {
            return None;
        }
        Some(Bits { word })
    }

    /// The bits in order, of which the first 65 are kept: more than any line of stations has.
    pub fn kept(&self) -> KeptBits
        ensures { kept_of result ≡ take 65 (bits_of self.now) }
    {
        let word = &self.word[..MOST_BITS.min(self.word.len())];
        let mut places = [false; MOST_BITS];
        for (place, byte) in word.iter().enumerate() {
            places[place] = *byte == b'1';
        }
        KeptBits {
            places,
            count: word.len(),
        }
    }
}

/// The most bits that are kept: one more than the longest line has.
const MOST_BITS: usize = 65;

/// A list of up to 65 bits.
#[derive(Clone, Copy, Debug)]
pub struct KeptBits {
    places: [bool; MOST_BITS],
    count: usize,
    ghost within: { count ≤ 65 },
}

impl KeptBits {
    ghost use Rattle.text_grammar.specs.Bits.{kept_of};

    /// The bits in order.
    pub fn as_slice(&self) -> &[bool]
        ensures { result.now ≡ kept_of self.now }
    {
        &self.places[..self.count]
    }
}

fn has_bits_alone(word: &[u8]) -> bool
    ensures { IsTrue result
        ↔ ((0 < length word.now) × All (λ byte. (byte ≡ 48) ⊎ (byte ≡ 49)) word.now) }
{
    !word.is_empty() && word.iter().all(|byte| *byte == b'0' || *byte == b'1')
}
