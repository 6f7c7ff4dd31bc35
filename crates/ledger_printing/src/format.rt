//! The formats.
ghost use Rattle.std.specs.Prelude.{◌≡◌, ◌↔◌, Some, codes};

/// How a journal and balances are printed.
#[derive(Clone, Copy, Debug, PartialEq, Eq)]
pub enum Format {
    /// Columns of text for a reader.
    Table,
    /// Comma-separated values behind a line of names.
    Csv,
    /// JSON Lines: one object a line.
    Json,
    /// Transactions as `hledger` and `ledger` read them.
    Hledger,
}

impl Format {
    /// The names of the formats, as a word of the command line has them.
    pub const NAMES: &'static [&'static str] = &["table", "csv", "json", "hledger"];

    /// The format of this name, if there is one.
    pub fn named(name: &str) -> Option<Format>
        ensures table { (result ≡ Some Format.Table) ↔ (name.now ≡ codes "table") }
        ensures csv { (result ≡ Some Format.Csv) ↔ (name.now ≡ codes "csv") }
        ensures json { (result ≡ Some Format.Json) ↔ (name.now ≡ codes "json") }
        ensures hledger { (result ≡ Some Format.Hledger) ↔ (name.now ≡ codes "hledger") }
    {
        match name {
            "table" => Some(Format::Table),
            "csv" => Some(Format::Csv),
            "json" => Some(Format::Json),
            "hledger" => Some(Format::Hledger),
            _ => None,
        }
    }
}
