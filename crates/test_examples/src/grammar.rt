//! Lines, and what they ask for: the commands of scripts, and the requests of counters.
use text_grammar::{Bits, Command, Request, read_command, read_request};
use turn_ledger::Entry;

// The command of a line, where it has one.
fn command(line: &[u8]) -> Option<Command> {
    read_command(line, 7).ok().flatten()
}

fn has_bits(bits: &Bits, wanted: [bool; 3]) -> bool {
    bits.kept().as_slice() == wanted.as_slice()
}

// An entry has the number of its line as its reference.
const WANTED: Entry = Entry::Withdraw {
    from: 1,
    amount: 500,
    reference: 7,
};

// Whether a line is read as the command of this number.
fn is_command(number: u8, line: &[u8]) -> bool {
    match (number, command(line)) {
        (0, Some(Command::Format { slots })) => slots.get() == 4,
        (1, Some(Command::Turn { station })) => station == u64::MAX,
        (2, Some(Command::Open { stations, x, up })) => {
            stations == 3
                && has_bits(&x, [false, true, true])
                && has_bits(&up, [true, false, false])
        }
        (3, Some(Command::Post { station, entry })) => station == 2 && entry == WANTED,
        (4, Some(Command::Bits)) | (5, Some(Command::Balances)) | (6, Some(Command::Crash)) => true,
        (7, Some(Command::Day { moves })) => moves == 100_000,
        _ => false,
    }
}

#[test]
fn each_command_is_read(rt: HostRuntime) {
    assert!(rt;
        is_command(0, b"format 0004")
            && is_command(1, b"  turn   18446744073709551615 ")
            && is_command(2, b"open 3 011 100")
            && is_command(3, b"post 2 withdraw 1 0500")
            && is_command(4, b"bits")
            && is_command(5, b"balances")
            && is_command(6, b"crash")
            && is_command(7, b"day 0100000")
    );
}

// The request of a line.
fn request(line: &[u8]) -> Option<Request> {
    read_request(line).ok().flatten()
}

fn sealed(reference: u64) -> Option<Request> {
    let account = 1024;
    Some(Request::Post(Entry::Seal { account, reference }))
}

// An entry has the number behind it as its reference, and else 0.
#[test]
fn each_request_is_read(rt: HostRuntime) {
    let (account, reference) = (4_294_967_295, 18_446_744_073_709_551_615);
    assert!(rt; request(b"seal 1024") == sealed(0) && request(b"seal 1024 9") == sealed(9));
    assert!(rt;
        request(b"balance 4294967295") == Some(Request::Balance { account })
            && request(b" find  018446744073709551615 ") == Some(Request::Find { reference })
    );
    assert!(rt;
        request(b"help") == Some(Request::Help)
            && request(b"status") == Some(Request::Status)
            && request(b" name ") == Some(Request::Name)
            && request(b"close") == Some(Request::Close)
    );
}
