//! Options with a number, each with its name and its limits, and how options of other kinds are
//! made.
ghost use Rattle.std.specs.Prelude.{◌≡◌, ◌≤◌, ℕ, List, None, Some, false, IfOk, IfSome, option_map};
ghost use Rattle.std.specs.Int.NonZero.{non_zero_u64_get};
ghost use Rattle.std.specs.Str.Parse.{digits_value, without_leading_plus};
ghost use Rattle.clap.specs.Words.{first_value, found_of, one_text, rule_of};
ghost use Rattle.front_program.specs.ConsoleWords.{path_option, number_option, flag_option};

use crate::wrong_words::WrongWords;
use clap::builder::ValueParser;
use clap::{Arg, ArgAction, ArgMatches};
use four_state::{FEWEST_STATIONS, MOST_STATIONS};
use gate_journal::{ACCOUNTS, MOST_SLOTS};
use ledger_file::MOST_SECTORS;
use std::alloc::Global;
use std::num::NonZeroU64;

/// An option with a number.
#[derive(Clone, Copy)]
pub(crate) struct NumberOption {
    /// Its long name.
    pub name: &'static str,
    /// What help calls its value.
    pub value: &'static str,
    pub least: u64,
    pub most: u64,
}

/// How many sectors a device has.
pub(crate) const SECTORS: NumberOption = NumberOption {
    name: "sectors",
    value: "K",
    least: 1,
    most: MOST_SECTORS,
};

/// How many slots a bank gets.
pub(crate) const SLOTS: NumberOption = NumberOption {
    name: "slots",
    value: "K",
    least: 1,
    most: MOST_SLOTS,
};

/// The same, where a ledger is made before it is used.
pub(crate) const FORMAT: NumberOption = NumberOption {
    name: "format",
    value: "SLOTS",
    ..SLOTS
};

/// How many stations a line has.
pub(crate) const STATIONS: NumberOption = NumberOption {
    name: "stations",
    value: "N",
    least: FEWEST_STATIONS,
    most: MOST_STATIONS,
};

/// How long something may take.
pub(crate) const SECONDS: NumberOption = NumberOption {
    name: "seconds",
    value: "S",
    least: 0,
    most: 86_400,
};

/// From which record on.
pub(crate) const FROM: NumberOption = NumberOption {
    name: "from",
    value: "N",
    least: 0,
    most: u64::MAX,
};

/// Before which record.
pub(crate) const AT: NumberOption = NumberOption { name: "at", ..FROM };

/// Which account.
pub(crate) const ACCOUNT: NumberOption = NumberOption {
    name: "account",
    value: "A",
    least: 1,
    most: ACCOUNTS as u64,
};

/// Which reference.
pub(crate) const REFERENCE: NumberOption = NumberOption {
    name: "reference",
    value: "R",
    ..FROM
};

impl NumberOption {
    /// It, for a command.
    pub(crate) fn arg<'a>(self, alloc: Global, help: &'a str) -> Arg<'a>
        ensures rule { rule_of result ≡ number_option self.name.now self.least self.most }
        ensures own { result.global ≡ false }
    {
        option(alloc, self.name, self.value, help).value_parser(ValueParser::unsigned(
            self.least, self.most,
        ))
    }

    /// The number that it is given, or None if it isn't there.
    pub(crate) fn given(self, matches: &ArgMatches<'_>) -> Result<Option<u64>, WrongWords>
        ensures none { IfOk result (λ number. number ≡ None
            → first_value (found_of matches.now) self.name.now ≡ None) }
        ensures asked { IfOk result (λ found. IfSome found (λ number. (text : List ℕ)
            × (one_text (found_of matches.now) self.name.now ≡ Some text)
            × (number ≡ digits_value 10 (without_leading_plus text)))) }
        ensures within { IfOk result (λ found. IfSome found (λ number.
            (self.least ≤ number) × (number ≤ self.most))) }
    {
        if matches.get_str(self.name).is_none() {
            return Ok(None);
        }
        match self.number(matches) {
            Some(number) => Ok(Some(number)),
            None => Err(WrongWords::OutOfRange),
        }
    }

    /// The number that it has, if that is within its limits.
    pub(crate) fn number(self, matches: &ArgMatches<'_>) -> Option<u64>
        ensures asked { IfSome result (λ number. (text : List ℕ)
            × (one_text (found_of matches.now) self.name.now ≡ Some text)
            × (number ≡ digits_value 10 (without_leading_plus text))) }
        ensures least { IfSome result (λ number. self.least ≤ number) }
        ensures most { IfSome result (λ number. number ≤ self.most) }
    {
        match matches.get_one::<u64>(self.name) {
            Some(number) if self.least <= number && number <= self.most => Some(number),
            _ => None,
        }
    }
}

/// The same number, as one that isn't zero; none of zero.
pub(crate) fn non_zero(number: Option<u64>) -> Option<NonZeroU64>
    ensures same { IfSome number (λ count. 1 ≤ count)
        → option_map non_zero_u64_get result ≡ number }
    ensures most { IfSome number (λ count. count ≤ 1000000)
        → IfSome result (λ slots. non_zero_u64_get slots ≤ 1000000) }
{
    NonZeroU64::new(number?)
}

/// An option with a value.
pub(crate) fn option<'a>(alloc: Global, name: &'a str, value: &'a str, help: &'a str) -> Arg<'a>
    ensures rule { rule_of result ≡ path_option name.now }
    ensures own { result.global ≡ false }
{
    Arg::new(alloc, name)
        .long(name)
        .value_name(value)
        .help(help)
        .action(ArgAction::Set)
}

/// An option without one.
pub(crate) fn flag<'a>(alloc: Global, name: &'a str, help: &'a str) -> Arg<'a>
    ensures rule { rule_of result ≡ flag_option name.now }
    ensures own { result.global ≡ false }
{
    Arg::new(alloc, name)
        .long(name)
        .help(help)
        .action(ArgAction::SetTrue)
}
