//! Worked examples: what is expected was worked out by hand from the rules.

use crate::scenes::needed;
use turn_ledger::{Batch, Entry, EntryRefusal, Ledger, Verdicts};

fn deposit(to: u32, amount: u64) -> Entry {
    Entry::Deposit {
        to,
        amount,
        reference: 3,
    }
}

fn withdraw(from: u32, amount: u64) -> Entry {
    Entry::Withdraw {
        from,
        amount,
        reference: 4,
    }
}

fn transfer(from: u32, to: u32, amount: u64) -> Entry {
    Entry::Transfer {
        from,
        to,
        amount,
        reference: 5,
    }
}

// Of three entries the second one is refused, since the account holds too little.
fn are_told(verdicts: &Verdicts) -> bool {
    for verdict in verdicts {
        if *verdict == Err(EntryRefusal::OverLimit) {
            return false;
        }
    }
    (verdicts.len(), verdicts.accepted(), verdicts.is_empty()) == (3, 2, false)
        && verdicts.get(1) == Some(Err(EntryRefusal::Short))
}

// Two entries were accepted, of which this is the second.
fn is_accepted(batch: &Batch, last: Entry) -> bool {
    (batch.len(), batch.is_empty(), batch.get(1)) == (2, false, Some(last))
}

// What the 1,024 accounts hold.
fn is_posted(ledger: &Ledger) -> bool {
    (ledger.balance(1), ledger.balance(2), ledger.total()) == (Some(60), Some(40), 100)
        && ledger.accounts().count() == 1024
}

#[test]
fn an_example_of_a_turn(rt: HostRuntime) {
    let mut ledger = needed(&rt, Ledger::new(rt.alloc()));
    let entries = [deposit(1, 100), withdraw(1, 150), transfer(1, 2, 40)];
    let verdicts = ledger.screen(&entries);
    let batch = Batch::of_accepted(&entries, &verdicts);
    assert!(rt; are_told(&verdicts) && is_accepted(&batch, entries[2]));
    for entry in &batch {
        needed(&rt, ledger.post(entry));
    }
    assert!(rt; is_posted(&ledger));
}
