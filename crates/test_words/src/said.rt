//! The words of a line.
use crate::told::Told;
use std::str::SplitWhitespace;

/// The words of a line, from the next one on.
#[derive(Drop)]
pub struct Said<'a> {
    words: SplitWhitespace<'a>,
    // Whether one was missing, or was no number.
    is_wrong: bool,
}

impl<'a> Said<'a> {
    /// All words of a line.
    pub fn of(line: &'a str) -> Said<'a> {
        Said {
            words: line.split_whitespace(),
            is_wrong: false,
        }
    }

    /// The next word.
    pub fn word(&mut self) -> Option<&'a str> {
        self.words.next()
    }

    /// The number that the next word writes.
    pub fn number(&mut self) -> u64 {
        match self.word() {
            Some(word) => self.read_number(word),
            None => {
                self.is_wrong = true;
                0
            }
        }
    }

    /// The same, or that one if no word is left.
    pub fn number_or(&mut self, other: u64) -> u64 {
        match self.word() {
            Some(word) => self.read_number(word),
            None => other,
        }
    }

    fn read_number(&mut self, word: &str) -> u64 {
        match word.parse::<u64>() {
            Ok(number) => number,
            Err(_) => {
                self.is_wrong = true;
                0
            }
        }
    }

    /// The same of a number below 2³²; any larger one is the largest.
    pub fn small(&mut self) -> u32 {
        self.number().min(u32::MAX as u64) as u32
    }

    /// The same of the number of a station.
    pub fn station(&mut self) -> u8 {
        self.number().min(u8::MAX as u64) as u8
    }

    /// How many bytes the next word writes, as two hexadecimal digits each. They are the first of
    /// those handed in then.
    pub fn bytes(&mut self, into: &mut [u8]) -> usize {
        let count = decoded(self.word().unwrap_or(""), into);
        self.is_wrong = self.is_wrong || count == 0;
        count
    }

    /// Whether all words were there, and of their kind; if not, that is told.
    pub fn is_right(&self, told: &mut Told) -> bool {
        if self.is_wrong {
            told.line("wrong words");
        }
        !self.is_wrong
    }

    /// Notes that it was.
    pub fn note_wrong(&mut self) {
        self.is_wrong = true;
    }
}

// How many bytes a word writes, which are the first of those handed in then.
fn decoded(word: &str, into: &mut [u8]) -> usize {
    let count = word.len() / 2;
    if let Some(first) = into.get_mut(..count) {
        if hex::decode_to_slice(word, first).is_ok() {
            return count;
        }
    }
    0
}
