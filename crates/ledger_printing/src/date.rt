//! The date of transactions.
use std::fmt;
use std::str::FromStr;
use thiserror::Error;

/// A day of the calendar, from 0000-01-01 to 9999-12-31.
#[derive(Clone, Copy, Debug, PartialEq, Eq)]
pub struct Date(jiff::civil::Date);

/// The text is no date of the form YYYY-MM-DD, or the calendar has no such day.
#[derive(Clone, Copy, Debug, PartialEq, Eq, Error)]
#[error("no date of the form YYYY-MM-DD")]
pub struct BadDate;

/// The length of YYYY-MM-DD.
const LENGTH: usize = 10;

/// Reads YYYY-MM-DD, and no other form of a date.
impl FromStr for Date {
    type Err = BadDate;

    fn from_str(text: &str) -> Result<Date, BadDate> {
        let has_form = text.len() == LENGTH
            && text.bytes().enumerate().all(|(place, byte)| match place {
                4 | 7 => byte == b'-',
                _ => byte.is_ascii_digit(),
            });
        if !has_form {
            return Err(BadDate);
        }
        let date = text.parse::<jiff::civil::Date>().map_err(|_| BadDate)?;
        Ok(Date(date))
    }
}

/// As it is read.
impl fmt::Display for Date {
    fn fmt<W: fmt::Write>(&self, f: &mut fmt::Formatter<W>) -> fmt::Result {
        write!(f, "{}", self.0)
    }
}
