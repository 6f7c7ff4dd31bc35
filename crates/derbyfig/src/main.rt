//! Derbyfig: a crash-safe ledger of accounts, which stations in a row share.
//!
//! The crate `front_program` does all of it; here it is handed the words and the streams of the
//! system.
#![tactic(auto)]

use front_program::{FileLocks, Surroundings, run_derbyfig_words, words_given};
use std::io::IsTerminal;
use std::process::ExitCode;

fn main(rt: HostRuntime) -> ExitCode {
    let given = words_given(&rt);
    let surroundings = Surroundings {
        input: rt.stdin(),
        output: rt.stdout(),
        // a thread of the office looks at them, for which the type of the runtime has to be known
        // here
        locks: FileLocks(rt),
    };
    let (mut output, mut errors) = (rt.stdout(), rt.stderr());
    // on a terminal on which nothing else is printed
    let shows = errors.is_terminal() && !output.is_terminal();
    let status = run_derbyfig_words(&rt, given, surroundings, &mut output, &mut errors, shows);
    ExitCode::from(status)
}
