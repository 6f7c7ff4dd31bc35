//! The bytes of a stream, cut into lines as they come.
ghost use Rattle.std.specs.Prelude.{◌≡◌, ◌≢◌, ℕ, ◌<◌, ◌≤◌, List, [], ◌∷◌, ◌++◌, ◌==◌, length, take};
ghost use Rattle.std.specs.Prelude.{IfOk, MatchOption};
ghost use Rattle.std.specs.Str.Lines.{lines, strip_carriage_return};
ghost use Rattle.text_grammar.specs.Cutting.{HasSeen, cut_of};
ghost use Rattle.text_grammar.specs.declared.cutting.Cut.TheVariants.{Line, Nothing, TooLong};

use crate::words::without_return;
use std::alloc::{AllocError, Global};
use std::marker::Model;

/// The most bytes of a counter's line, without its end.
pub const LINE_LIMIT: usize = 256;

/// A line's limit in numbers, as a statement; the body does nothing.
pub fn line_limit_in_numbers()
    ensures { LINE_LIMIT ≡ 256 }
{}

/// How many bytes of a line are kept: those of the longest one, its carriage return, and one more,
/// that tells that there were more.
const KEPT: usize = LINE_LIMIT + 2;

/// What a byte did, or the end of a stream.
#[derive(Clone, Copy, Debug, PartialEq, Eq)]
pub enum Cut {
    /// It ended no line.
    Nothing,
    /// It ended a line, which [`LineCutter::line`] lends.
    Line,
    /// It ended a line of more than [`LINE_LIMIT`] bytes, of which nothing is lent.
    TooLong,
}

/// Cuts a stream, which comes byte after byte, into lines. A line ends with a line feed, and one
/// carriage return before it is dropped. It has at most 256 bytes, the line feed and that carriage
/// return not counted; of a longer one the first 258 bytes are kept, and only until it ends. Every
/// other byte is one of its line, a zero byte too.
#[derive(Debug, Drop)]
pub struct LineCutter {
    kept: Vec<u8>,
    has_ended: bool,
}

impl Model for LineCutter {
    ghost use Rattle.std.specs.Prelude.{◌≡◌, ◌≤◌, ◌==◌, Some, None, [], false, All, cond, vec_len};
    ghost use Rattle.std.specs.Prelude.{vec_capacity};
    ghost use Rattle.text_grammar.specs.Cutting.{Cutting};

    ghost Value = { Cutting };

    ghost view = { λ cutter. record {
      since = cond cutter.has_ended [] cutter.kept.items;
      ended = cond cutter.has_ended (Some cutter.kept.items) None;
    } };

    ghost invariant = { λ cutter. (vec_len cutter.kept ≤ 258) × (258 ≤ vec_capacity cutter.kept)
        × All (λ byte. (byte == 10) ≡ false) cutter.kept.items };
}

impl LineCutter {
    /// A cutter that was given nothing yet. No later call takes memory.
    ///
    /// # Errors
    /// Out of memory.
    pub fn new(alloc: Global) -> Result<LineCutter, AllocError>
        ensures { IfOk result (λ cutter. HasSeen cutter [] × (cutter.ended ≡ None)) }
    {
        Ok(LineCutter {
            kept: Vec::with_capacity(alloc, KEPT)?,
            has_ended: false,
        })
    }

    /// Takes the next byte of the stream.
    pub fn push(&mut self, byte: u8) -> Cut
        // whatever stands since the last line feed: another byte stands behind it
        ensures goes_on { (bytes : List ℕ) → HasSeen self.old bytes → byte ≢ 10
            → (result ≡ Nothing) × HasSeen self.new (bytes ++ byte ∷ []) }
        // a line feed ends it as a line, or as one that is too long
        ensures cuts { (bytes : List ℕ) → HasSeen self.old bytes → byte ≡ 10
            → (result ≡ cut_of (strip_carriage_return bytes)) × HasSeen self.new [] }
        ensures line { (bytes : List ℕ) → HasSeen self.old bytes → result ≡ Line
            → self.new.ended ≡ Some (strip_carriage_return bytes) }
        ensures no_line { result ≢ Line → self.new.ended ≡ None }
        // a line that ended is the next one of the stream
        ensures next_line { (bytes rest line : List ℕ) → HasSeen self.old bytes
            → self.new.ended ≡ Some line → lines (bytes ++ byte ∷ rest) ≡ line ∷ lines rest }
    {
        self.begin();
        if byte == b'\n' {
            let length = without_return(&self.kept).len();
            return self.cut(length);
        }
        if self.kept.len() < KEPT {
            self.kept.push_reserved(byte);
        }
        Cut::Nothing
    }

    /// Ends the stream: what stands behind the last line feed is a line too, unless it is empty. No
    /// carriage return is dropped. A byte that comes afterwards begins a line.
    pub fn end(&mut self) -> Cut
        ensures none { HasSeen self.old [] → result ≡ Nothing }
        ensures cuts { (bytes : List ℕ) → HasSeen self.old bytes → 0 < length bytes
            → result ≡ cut_of bytes }
        ensures line { (bytes : List ℕ) → HasSeen self.old bytes → result ≡ Line
            → self.new.ended ≡ Some bytes }
        ensures no_line { result ≢ Line → self.new.ended ≡ None }
        // a line that ended is the last one of the stream
        ensures last_line { (bytes line : List ℕ) → HasSeen self.old bytes
            → self.new.ended ≡ Some line → lines bytes ≡ line ∷ [] }
        ensures begins { HasSeen self.new [] }
    {
        self.begin();
        if self.kept.is_empty() {
            return Cut::Nothing;
        }
        let length = self.kept.len();
        self.cut(length)
    }

    /// The line that the last call ended, if it answered [`Cut::Line`], and else nothing.
    pub fn line(&self) -> &[u8]
        ensures lent { MatchOption self.now.ended (result.now ≡ []) (λ line. result.now ≡ line) }
        // whatever cutter it is, there are bytes that it has seen
        ensures seen { HasSeen self.now self.now.since }
    {
        if self.has_ended { &self.kept } else { &[] }
    }

    // Drops the line that ended.
    fn begin(&mut self)
        ensures since { self.new.since ≡ self.old.since }
        ensures ended { self.new.ended ≡ None }
    {
        if self.has_ended {
            self.kept.clear();
            self.has_ended = false;
        }
    }

    // Ends the line that is kept, which has so many bytes without its end.
    fn cut(&mut self, length: usize) -> Cut
        requires { self.old.ended ≡ None }
        ensures too_long { 256 < length → (result ≡ TooLong) × (self.new.ended ≡ None) }
        ensures line { length ≤ 256
            → (result ≡ Line) × (self.new.ended ≡ Some (take length self.old.since)) }
        ensures since { self.new.since ≡ [] }
    {
        if length > LINE_LIMIT {
            self.kept.clear();
            return Cut::TooLong;
        }
        self.kept.truncate(length);
        self.has_ended = true;
        Cut::Line
    }
}
