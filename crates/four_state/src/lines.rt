//! The line itself.

ghost use Rattle.std.specs.Prelude.{◌≡◌, ℕ, ◌+◌, ◌-◌, ◌<◌, ◌≤◌, ◌⊎◌, ◌↔◌, ◌≢◌, length, true, false};
ghost use Rattle.std.specs.Prelude.{IsTrue, IsOk, IfOk, IsNone, IfSome, IsBitSet, slice_set};
ghost use Rattle.std.specs.Prelude.{slice_index_or, map, ◌^◌};
ghost use Rattle.std.specs.List.{Contains, range_with_len};
ghost use Rattle.four_state.specs.Configuration.{stations, x_at, up_at, IsLine};
ghost use Rattle.four_state.specs.Privilege.{IsPrivilege, IsLegitimate, privileges_of, choice};
ghost use Rattle.four_state.specs.Marks.{rises, falls};
ghost use Rattle.four_state.specs.Motion.{moved, x_flipped, IsMove};
ghost use Rattle.four_state.specs.Words.{word_of};
ghost use Rattle.four_state.specs.declared.rules.Rule.{Rule};

use crate::bits::{is_set, packed, with_bit};
use crate::refusals::LineRefusal;
use crate::rules::Rule;
use std::fmt;
use std::marker::Model;

/// The fewest and the most stations of a line.
pub const FEWEST_STATIONS: u64 = 2;

pub const MOST_STATIONS: u64 = 64;

// The places of the two words.
const X: usize = 0;

const UP: usize = 1;

/// A line of 2 to 64 stations, each with two bits. The bottom station's up is always true, and the
/// top one's always false.
#[derive(Clone, Copy, Debug, PartialEq, Eq, Hash)]
pub struct Line {
    stations: u8,
    // the bits x in one word and the bits up in another: bit s is that of station s, all other bits
    // are zero
    words: [u64; 2],
}

impl Model for Line {
    ghost use Rattle.four_state.specs.Configuration.{Configuration};

    ghost Value = { Configuration };

    ghost use Rattle.four_state.specs.Words.{shown, IsKept};
    ghost use Rattle.four_state.specs.Kept.{kept, kept-shown};

    ghost view = { λ a. shown a.stations a.words };

    ghost invariant = { λ a. IsKept a.stations a.words };

    ghost inverse = { kept };

    ghost inverse_ok = { kept-shown };
}

impl Line {
    /// The line of `n` stations with these bits, each list from the bottom station to the top one.
    /// The first and the last bit of `up` are ignored: they are set to true and false.
    ///
    /// # Errors
    /// [`LineRefusal::Stations`] unless `n` is 2 to 64; then [`LineRefusal::Length`] unless each
    /// list has `n` bits.
    pub fn from_bits(n: u64, x: &[bool], up: &[bool]) -> Result<Line, LineRefusal>
        ensures stations { (result ≡ Err LineRefusal.Stations) ↔ ((n < 2) ⊎ (64 < n)) }
        ensures length { (result ≡ Err LineRefusal.Length)
            ↔ (((2 ≤ n) × (n ≤ 64)) × ((length x.now ≢ n) ⊎ (length up.now ≢ n))) }
        ensures ok { IsOk result
            ↔ (((2 ≤ n) × (n ≤ 64)) × ((length x.now ≡ n) × (length up.now ≡ n))) }
        ensures bits { IfOk result
            (λ line. line
            ≡ record { x = x.now; up = slice_set (slice_set up.now 0 true) (n - 1) false }) }
        ensures line { IfOk result IsLine }
    {
        if !(FEWEST_STATIONS..=MOST_STATIONS).contains(&n) {
            return Err(LineRefusal::Stations);
        }
        if x.len() as u64 != n || up.len() as u64 != n {
            return Err(LineRefusal::Length);
        }
        Ok(Line::of_bits(x, up))
    }

    // The line of as many stations as there are bits, with the two end bits of up set.
    fn of_bits(x: &[bool], up: &[bool]) -> Line
        requires as_long { length up.now ≡ length x.now }
        requires two { 2 ≤ length x.now }
        requires at_most { length x.now ≤ 64 }
        ensures bits { result ≡ record {
          x = x.now;
          up = slice_set (slice_set up.now 0 true) (length x.now - 1) false;
        } }
        ensures line { IsLine result }
    {
        let n = x.len();
        let bottom_set = with_bit(packed(up), 0, true);
        Line {
            stations: n as u8,
            words: [packed(x), with_bit(bottom_set, n - 1, false)],
        }
    }

    /// The bits as two words: those of x, then those of up. Bit s is that of station s, and all
    /// other bits are zero.
    pub fn words(&self) -> &[u64; 2]
        ensures x { (s : ℕ) → IsBitSet (slice_index_or result.now 0 0) s
            ↔ IsTrue (x_at self.now s) }
        ensures up { (s : ℕ) → IsBitSet (slice_index_or result.now 1 0) s
            ↔ IsTrue (up_at self.now s) }
        ensures others { (word : ℕ) → Contains result.now word
            → (s : ℕ) → stations self.now ≤ s → ¬ IsBitSet word s }
    {
        &self.words
    }

    /// How many stations stand in the line: 2 to 64. The bottom one has number 0.
    pub fn stations(&self) -> u8
        ensures count { result ≡ stations self.now }
        ensures line { IsLine self.now }
    {
        self.stations
    }

    /// The bit x of a station of the line.
    pub fn x(&self, station: u8) -> bool
        requires { station < stations self.now }
        ensures { result ≡ x_at self.now station }
    {
        is_set(self.words[X], station as usize)
    }

    /// The bit up of a station of the line.
    pub fn up(&self, station: u8) -> bool
        requires { station < stations self.now }
        ensures { result ≡ up_at self.now station }
    {
        is_set(self.words[UP], station as usize)
    }

    /// Whether the station has a privilege by this rule; false of a station past the top one.
    pub fn enabled(&self, station: u8, rule: Rule) -> bool
        ensures { IsTrue result ↔ IsPrivilege self.now station rule }
    {
        let s = station as usize;
        let top = self.stations as usize - 1;
        match rule {
            Rule::Bottom => s == 0 && self.falls(0),
            Rule::Top => s == top && self.rises(s - 1),
            Rule::Raise => 0 < s && s < top && self.rises(s - 1),
            Rule::Lower => 0 < s && s < top && self.falls(s),
        }
    }

    /// The rule by which the station moves, if it may: Raise if it has two privileges.
    pub fn privilege(&self, station: u8) -> Option<Rule>
        requires { station < stations self.now }
        ensures choice { result ≡ choice self.now station }
        ensures one { IfSome result (IsPrivilege self.now station) }
        ensures none { IsNone result → (rule : Rule) → ¬ IsPrivilege self.now station rule }
        ensures raise_first { IsPrivilege self.now station Rule.Raise → result ≡ Some Rule.Raise }
    {
        if self.enabled(station, Rule::Bottom) {
            Some(Rule::Bottom)
        } else if self.enabled(station, Rule::Top) {
            Some(Rule::Top)
        } else if self.enabled(station, Rule::Raise) {
            Some(Rule::Raise)
        } else if self.enabled(station, Rule::Lower) {
            Some(Rule::Lower)
        } else {
            None
        }
    }

    /// How many privileges are present: at least one.
    pub fn privileges(&self) -> u8
        ensures number { result ≡ length (privileges_of self.now) }
        ensures at_least_one { 1 ≤ result }
        ensures line { IsLine self.now }
    {
        (self.rising().count_ones() + self.falling().count_ones()) as u8
    }

    /// Whether exactly one privilege is present.
    pub fn is_legitimate(&self) -> bool
        ensures legitimate { IsTrue result ↔ IsLegitimate self.now }
        ensures line { IsLine self.now }
    {
        self.privileges() == 1
    }

    /// Makes the move of a station by a rule for which it has a privilege. The other bits stay.
    pub fn make_move(&mut self, station: u8, rule: Rule)
        requires { IsPrivilege self.old station rule }
        ensures moved { self.new ≡ moved self.old station rule }
        ensures a_move { IsMove self.old station rule self.new }
        ensures line { IsLine self.new }
    {
        prove!(station < self.stations());
        let s = station as usize;
        match rule {
            Rule::Bottom | Rule::Top => self.flip_x(s),
            Rule::Raise => {
                self.flip_x(s);
                self.set_up(s, true);
            }
            Rule::Lower => self.set_up(s, false),
        }
    }

    // Flips the bit x of a station.
    fn flip_x(&mut self, s: usize)
        requires { s < stations self.old }
        ensures flipped { self.new ≡ record { x = x_flipped self.old s; up = self.old.up } }
        ensures line { IsLine self.new }
    {
        let x = self.words[X];
        self.words[X] = x ^ (1 << s);
    }

    // Sets the bit up of a station between the ends.
    fn set_up(&mut self, s: usize, up: bool)
        requires above { 0 < s }
        requires below { s + 1 < stations self.old }
        ensures set { self.new ≡ record { x = self.old.x; up = slice_set self.old.up s up } }
        ensures line { IsLine self.new }
    {
        self.words[UP] = with_bit(self.words[UP], s, up);
    }

    // Whether the bits x of neighbors differ, the lower of which is `below`: a privilege of the
    // upper one.
    fn rises(&self, below: usize) -> bool
        requires { below + 1 < stations self.now }
        ensures { result ≡ rises self.now below }
    {
        is_set(self.rising(), below)
    }

    // Whether they are equal, and only the lower one is up: a privilege of the lower one.
    fn falls(&self, below: usize) -> bool
        requires { below + 1 < stations self.now }
        ensures { result ≡ falls self.now below }
    {
        is_set(self.falling(), below)
    }

    // The boundaries where `rises`, as a word: bit b is that of stations b and b + 1.
    fn rising(&self) -> u64
        ensures marks { result
            ≡ word_of (map (rises self.now) (range_with_len 0 (stations self.now - 1))) }
        ensures line { IsLine self.now }
    {
        let [x, _] = self.words;
        (x ^ (x >> 1)) & self.boundaries()
    }

    // The boundaries where `falls`, as a word.
    fn falling(&self) -> u64
        ensures marks { result
            ≡ word_of (map (falls self.now) (range_with_len 0 (stations self.now - 1))) }
        ensures line { IsLine self.now }
    {
        let [x, up] = self.words;
        !(x ^ (x >> 1)) & up & !(up >> 1) & self.boundaries()
    }

    // One bit for each boundary between neighbors, from the bottom.
    fn boundaries(&self) -> u64
        ensures { result ≡ 2 ^ (stations self.now - 1) - 1 }
    {
        (1 << (self.stations - 1)) - 1
    }
}

/// The bits x, a slash, and the bits up, each from the bottom station to the top one.
impl fmt::Display for Line {
    fn fmt<W: fmt::Write>(&self, f: &mut fmt::Formatter<W>) -> fmt::Result {
        let [x, up] = self.words;
        write_bits(x, self.stations(), f)?;
        f.write_str("/")?;
        write_bits(up, self.stations(), f)
    }
}

// The first bits of a word as digits, bit 0 first.
fn write_bits<W: fmt::Write>(word: u64, count: u8, f: &mut fmt::Formatter<W>) -> fmt::Result
    requires { count ≤ 64 }
{
    for place in 0..count as usize {
        f.write_str(if is_set(word, place) { "1" } else { "0" })?;
    }
    Ok(())
}
