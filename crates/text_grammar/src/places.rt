//! What words write at the places of a line.
ghost use Rattle.std.specs.Prelude.{◌≡◌, ◌<◌, ◌≤◌, true, false, List, [], ◌∷◌, length, IfOk, IfErr};
ghost use Rattle.text_grammar.specs.Bits.{bits_of};
ghost use Rattle.text_grammar.specs.Places.{AreTaken, Field, Fills, IsAnswer, Value, first_wrong};
ghost use Rattle.text_grammar.specs.Places.{takes, told_as, told_of_one, written};
ghost use Rattle.text_grammar.specs.Places.{Account, BitText, BitsAre, Moves, Number, NumberIs};
ghost use Rattle.text_grammar.specs.Places.{Slots};
ghost use Rattle.std.specs.Int.NonZero.{non_zero_u64_get};

use crate::faults::LineFault;
use crate::numbers::{Bits, read_number};
use crate::words::{Words, word};
use std::num::NonZeroU64;

/// The most turns that a line `day` may ask for.
pub const DAY_LIMIT: u64 = 100_000;

/// What a word writes at one place of a line.
pub trait Place<'a>: Copy {
    /// Which place that is.
    ghost field: { Field };

    /// The value that it is in the grammar.
    ghost value: { Self → Value };

    /// What the word writes, if it may stand at the place.
    fn read(word: &'a [u8]) -> Result<Self, LineFault>
        ensures ok { IfOk result (λ this.
            (takes field word.now ≡ true) × (written field word.now ≡ value this ∷ [])) }
        ensures err { IfErr result (λ fault.
            (takes field word.now ≡ false) × (fault ≡ told_as field)) };
}

/// A number.
impl<'a> Place<'a> for u64 {
    ghost field = { Number };

    ghost value = { λ number. NumberIs number };

    #[tactic(auto, using(crate::proofs::TestLemmas::numeral), unfolding(crate::specs::Places::takes))]
    fn read(word: &'a [u8]) -> Result<u64, LineFault> {
        read_number(word).ok_or(LineFault::BadNumber)
    }
}

/// An account, a number below 2^32.
impl<'a> Place<'a> for u32 {
    ghost field = { Account };

    ghost value = { λ account. NumberIs account };

    #[tactic(auto, unfolding(crate::specs::Places::takes))]
    fn read(word: &'a [u8]) -> Result<u32, LineFault> {
        u32::try_from(u64::read(word)?).or(Err(LineFault::BadNumber))
    }
}

/// A number of slots, above zero.
impl<'a> Place<'a> for NonZeroU64 {
    ghost field = { Slots };

    ghost value = { λ slots. NumberIs (non_zero_u64_get slots) };

    #[tactic(auto, unfolding(crate::specs::Places::takes))]
    fn read(word: &'a [u8]) -> Result<NonZeroU64, LineFault> {
        NonZeroU64::new(u64::read(word)?).ok_or(LineFault::BadNumber)
    }
}

impl<'a> Place<'a> for Bits<'a> {
    ghost field = { BitText };

    ghost value = { λ bits. BitsAre (bits_of bits) };

    #[tactic(auto, unfolding(crate::specs::Places::takes))]
    fn read(word: &'a [u8]) -> Result<Bits<'a>, LineFault> {
        Bits::read(word).ok_or(LineFault::BadBits)
    }
}

/// How many turns a day has: 1 to [`DAY_LIMIT`].
#[derive(Clone, Copy, Debug)]
pub struct Turns(pub u64);

impl<'a> Place<'a> for Turns {
    ghost field = { Moves };

    ghost value = { λ turns. NumberIs turns.0 };

    #[tactic(auto, unfolding(crate::specs::Places::takes))]
    fn read(word: &'a [u8]) -> Result<Turns, LineFault> {
        let turns = u64::read(word)?;
        if turns == 0 || turns > DAY_LIMIT {
            return Err(LineFault::BadNumber);
        }
        Ok(Turns(turns))
    }
}

/// What words write at several places, one behind another.
pub trait Places<'a>: Copy {
    /// Which places these are.
    ghost fields: { List Field };

    /// The values that they are in the grammar.
    ghost values: { Self → List Value };

    /// How many places these are.
    fn count() -> u8
        ensures { result ≡ length fields };

    /// What the next words write, as many as there are places; the first wrong one decides.
    fn take(words: &mut Words<'a>) -> Result<Self, LineFault>
        requires { length fields ≤ length words.old }
        ensures { IsAnswer (first_wrong fields words.old)
            (λ these. AreTaken fields (values these) words.old words.new) result };
}

/// What no words write.
#[derive(Clone, Copy)]
pub struct Nothing;

impl<'a> Places<'a> for Nothing {
    ghost fields = { [] };

    ghost values = { λ _. [] };

    fn count() -> u8 {
        0
    }

    #[tactic(auto, unfolding(crate::specs::Places::first_wrong))]
    fn take(_words: &mut Words<'a>) -> Result<Nothing, LineFault> {
        Ok(Nothing)
    }
}

/// What one word writes.
#[derive(Clone, Copy)]
pub struct One<A>(pub A);

impl<'a, A: Place<'a>> Places<'a> for One<A> {
    ghost fields = { A.field ∷ [] };

    ghost values = { λ these. A.value these.0 ∷ [] };

    fn count() -> u8 {
        1
    }

    fn take(words: &mut Words<'a>) -> Result<One<A>, LineFault> {
        Ok(One(next(words)?))
    }
}

/// What two words write.
#[derive(Clone, Copy)]
pub struct Two<A, B>(pub A, pub B);

impl<'a, A: Place<'a>, B: Place<'a>> Places<'a> for Two<A, B> {
    ghost fields = { A.field ∷ B.field ∷ [] };

    ghost values = { λ these. A.value these.0 ∷ B.value these.1 ∷ [] };

    fn count() -> u8 {
        2
    }

    fn take(words: &mut Words<'a>) -> Result<Two<A, B>, LineFault> {
        Ok(Two(next(words)?, next(words)?))
    }
}

/// What three words write.
#[derive(Clone, Copy)]
pub struct Three<A, B, C>(pub A, pub B, pub C);

impl<'a, A: Place<'a>, B: Place<'a>, C: Place<'a>> Places<'a> for Three<A, B, C> {
    ghost fields = { A.field ∷ B.field ∷ C.field ∷ [] };

    ghost values = { λ these. A.value these.0 ∷ B.value these.1 ∷ C.value these.2 ∷ [] };

    fn count() -> u8 {
        3
    }

    fn take(words: &mut Words<'a>) -> Result<Three<A, B, C>, LineFault> {
        let Two(first, second) = Two::take(words)?;
        Ok(Three(first, second, next(words)?))
    }
}

/// What the next word writes, if it may stand at the place.
pub fn next<'a, A: Place<'a>>(words: &mut Words<'a>) -> Result<A, LineFault>
    requires { 0 < length words.old }
    ensures { IsAnswer (first_wrong (A.field ∷ []) words.old)
        (λ this. AreTaken (A.field ∷ []) (A.value this ∷ []) words.old words.new) result }
{
    A::read(word(words)?)
}

/// What the words that are left write, which have to be as many as there are places.
#[tactic(auto, using(crate::proofs::GrammarLemmas::not_as_long))]
pub fn exactly<'a, P: Places<'a>>(mut words: Words<'a>) -> Result<P, LineFault>
    ensures { IsAnswer (told_of_one P.fields words.entry)
        (λ these. Fills words.entry P.fields (P.values these)) result }
{
    if words.are(usize::from(P::count())) {
        P::take(&mut words)
    } else {
        Err(LineFault::WrongNumberOfWords)
    }
}
