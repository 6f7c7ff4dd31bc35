//! Lines and words of a script.
ghost use Rattle.std.specs.Prelude.{◌≡◌, ◌⊎◌, ◌<◌, ℕ, true, false, List, [], ◌∷◌, ◌++◌, ◌==◌};
ghost use Rattle.std.specs.Prelude.{length, bytes_eq, slice_index, All, IfErr, IfOk, IfSome};
ghost use Rattle.std.specs.Prelude.{IsFalse, IsNone, IsTrue, MatchOption};
ghost use Rattle.std.specs.Str.Lines.{lines, strip_carriage_return};
ghost use Rattle.text_grammar.specs.Places.{is_skipped};
ghost use Rattle.text_grammar.specs.Script.{words_of};
ghost use Rattle.text_grammar.specs.declared.faults.LineFault.TheVariants.{WrongNumberOfWords};

use crate::faults::LineFault;
use std::marker::Model;

/// The lines of a script, seen as their list, without their ends: a line feed, and one carriage
/// return before it. What stands behind the last line feed is a line too, unless it is empty.
#[derive(Debug, Drop)]
pub struct Lines<'a> {
    rest: &'a [u8],
}

impl<'a> Model for Lines<'a> {
    ghost use Rattle.std.specs.Prelude.{List, ℕ};
    ghost use Rattle.std.specs.Str.Lines.{lines};

    ghost Value = { List (List ℕ) };

    ghost view = { λ script. lines script.rest.now };
}

impl<'a> Lines<'a> {
    /// The lines of these bytes.
    pub fn of(script: &'a [u8]) -> Lines<'a>
        ensures { result ≡ lines script.now }
    {
        Lines { rest: script }
    }
}

impl<'a> Iterator for Lines<'a> {
    type Item = &'a [u8];

    ghost use Rattle.std.specs.Iterator.{YieldsFirstRef, item_count};

    ghost next_gives = { YieldsFirstRef (λ lines. lines) };

    ghost remaining = { item_count (λ lines. lines) };

    #[tactic(auto, using(crate::proofs::ScriptLemmas::lines_cut))]
    fn next(&mut self) -> Option<&'a [u8]> {
        match split_at_byte(self.rest, b'\n') {
            Some((line, rest)) => {
                self.rest = rest;
                Some(without_return(line))
            }
            None => last_piece(&mut self.rest),
        }
    }
}

/// The line without the one carriage return at its end, if it has one.
pub fn without_return(line: &[u8]) -> &[u8]
    ensures { result.now ≡ strip_carriage_return line.now }
{
    match line {
        [before @ .., b'\r'] => before,
        _ => line,
    }
}

/// The words of a line, seen as their list: what stands between its spaces.
#[derive(Debug, Drop)]
pub struct Words<'a> {
    rest: &'a [u8],
}

impl<'a> Model for Words<'a> {
    ghost use Rattle.std.specs.Prelude.{List, ℕ};
    ghost use Rattle.text_grammar.specs.Script.{words_of};

    ghost Value = { List (List ℕ) };

    ghost view = { λ words. words_of words.rest.now };
}

impl<'a> Words<'a> {
    /// The words of these bytes.
    pub fn of(line: &'a [u8]) -> Words<'a>
        ensures { result ≡ words_of line.now }
    {
        Words { rest: line }
    }

    /// Whether so many words are left.
    pub fn are(&self, count: usize) -> bool
        ensures { result ≡ (length self.now == count) }
    {
        let mut words = Words { rest: self.rest };
        for _taken in 0..count {
            if words.next().is_none() {
                return false;
            }
        }
        words.next().is_none()
    }
}

impl<'a> Iterator for Words<'a> {
    type Item = &'a [u8];

    ghost use Rattle.std.specs.Iterator.{YieldsFirstRef, item_count};

    ghost next_gives = { YieldsFirstRef (λ words. words) };

    ghost remaining = { item_count (λ words. words) };

    #[tactic(auto, using(crate::proofs::ScriptLemmas::words_cut_some, crate::proofs::ScriptLemmas::words_cut_empty))]
    fn next(&mut self) -> Option<&'a [u8]> {
        'pieces: loop {
            match split_at_byte(self.rest, b' ') {
                Some((word, rest)) => {
                    self.rest = rest;
                    if !word.is_empty() {
                        return Some(word);
                    }
                }
                None => return last_piece(&mut self.rest),
            }
        }
    }
}

/// The first word of a line, unless the line says nothing.
pub fn first_name<'a>(words: &mut Words<'a>) -> Option<&'a [u8]>
    ensures none { IsNone result → is_skipped words.old ≡ true }
    ensures some { IfSome result (λ name.
        (words.old ≡ name.now ∷ words.new) × ((slice_index name.now 0 == 35) ≡ false)) }
{
    let name = words.next()?;
    if begins_comment(name) {
        return None;
    }
    Some(name)
}

fn begins_comment(name: &[u8]) -> bool
    ensures { result ≡ (slice_index name.now 0 == 35) }
{
    match name {
        [b'#', ..] => true,
        _ => false,
    }
}

/// Whether a word is this name.
pub fn is(word: &[u8], name: &str) -> bool
    ensures yes { IsTrue result → word.now ≡ name.now }
    ensures no { IsFalse result → bytes_eq word.now name.now ≡ false }
{
    word == name.as_bytes()
}

/// The next word, which has to be there.
pub fn word<'a>(words: &mut Words<'a>) -> Result<&'a [u8], LineFault>
    ensures ok { IfOk result (λ word. words.old ≡ word.now ∷ words.new) }
    ensures err { IfErr result (λ fault. (words.old ≡ []) × (fault ≡ WrongNumberOfWords)) }
{
    words.next().ok_or(LineFault::WrongNumberOfWords)
}

// What stands before the first such byte, and what behind it.
fn split_at_byte(bytes: &[u8], at: u8) -> Option<(&[u8], &[u8])>
    ensures none { IsNone result → All (λ byte. (byte == at) ≡ false) bytes.now }
    ensures some { IfSome result (λ parts. (bytes.now ≡ parts.0.now ++ at ∷ parts.1.now)
        × All (λ byte. (byte == at) ≡ false) parts.0.now) }
{
    let place = bytes.iter().position(|byte| *byte == at)?;
    Some((&bytes[..place], &bytes[place + 1..]))
}

// All that is left, unless it is empty.
fn last_piece<'a>(rest: &mut &'a [u8]) -> Option<&'a [u8]>
    ensures piece { MatchOption result (rest.old.now ≡ []) (λ piece.
        (piece.now ≡ rest.old.now) × (0 < length piece.now)) }
    ensures emptied { rest.new.now ≡ [] }
{
    let last = *rest;
    *rest = &[];
    if last.is_empty() { None } else { Some(last) }
}
