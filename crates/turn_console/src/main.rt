//! The console: a ledger that stations in a row share, driven by a script of commands.
//!
//! The crate `front_program` does all of it; here it is handed the words and the streams of the
//! system.
#![tactic(auto)]

use front_program::{run_console, words_given};
use std::process::ExitCode;

fn main(rt: HostRuntime) -> ExitCode {
    let given = words_given(&rt);
    let status = run_console(
        &rt,
        given,
        &mut rt.stdin(),
        &mut rt.stdout(),
        &mut rt.stderr(),
    );
    ExitCode::from(status)
}
