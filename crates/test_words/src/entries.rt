//! Entries as a line spells them: a kind and its numbers, the reference last, one entry behind
//! another.
use crate::said::Said;
use std::alloc::{AllocError, Global};
use turn_ledger::Entry;

/// More than any call takes.
pub const MOST: usize = 64;

/// A list with room for that many.
pub fn no_entries(alloc: Global) -> Result<Vec<Entry>, AllocError> {
    Vec::with_capacity(alloc, MOST)
}

/// Fills the list with all entries up to the end of the line.
pub fn read_entries(said: &mut Said<'_>, into: &mut Vec<Entry>) {
    into.clear();
    for _ in 0..MOST {
        let Some(kind) = said.word() else {
            return;
        };
        let entry = read_entry(kind, said);
        if into.push(entry).is_err() {
            said.note_wrong();
        }
    }
    said.note_wrong();
}

// The entry of a kind, whose numbers come next.
fn read_entry(kind: &str, said: &mut Said<'_>) -> Entry {
    match kind {
        "deposit" => Entry::Deposit {
            to: said.small(),
            amount: said.number(),
            reference: said.number(),
        },
        "withdraw" => Entry::Withdraw {
            from: said.small(),
            amount: said.number(),
            reference: said.number(),
        },
        "transfer" => Entry::Transfer {
            from: said.small(),
            to: said.small(),
            amount: said.number(),
            reference: said.number(),
        },
        "seal" => Entry::Seal {
            account: said.small(),
            reference: said.number(),
        },
        _ => {
            said.note_wrong();
            Entry::Seal {
                account: 0,
                reference: 0,
            }
        }
    }
}
