//! The names of counters.
ghost use Rattle.std.specs.Prelude.{◌↔◌, IsTrue};
ghost use Rattle.ledger_counters.specs.Name.{IsName, IsNameByte};

/// The most bytes of a name.
pub const LONGEST_NAME: usize = 64;

/// Whether this is a name: 1 to 64 letters and digits of ASCII, `-` and `_`.
pub fn is_name(text: &str) -> bool
    ensures { IsTrue result ↔ IsName text.now }
{
    let bytes = text.as_bytes();
    0 < bytes.len() && bytes.len() <= LONGEST_NAME && bytes.iter().all(|byte| is_name_byte(*byte))
}

fn is_name_byte(byte: u8) -> bool
    ensures { IsTrue result ↔ IsNameByte byte }
{
    byte.is_ascii_alphanumeric() || byte == b'-' || byte == b'_'
}

/// The name and the folder of a counter: `NAME=PATH`, or a path whose last part is the name. What
/// stands before a `=` names the counter only if it has no `/`.
pub fn name_of(word: &str) -> (&str, &str) {
    match word.split_once('=') {
        Some((name, folder)) if !name.contains('/') => (name, folder),
        _ => (last_part(word), word),
    }
}

// What stands behind the last `/`, but for those at the end.
fn last_part(path: &str) -> &str {
    let trimmed = path.trim_end_matches('/');
    match trimmed.rsplit_once('/') {
        Some((_, last)) => last,
        None => trimmed,
    }
}
