//! Answers, line by line, which glob patterns match.
#![tactic(auto)]

mod command;
mod ignore_files;
mod words;

use byte_streams::Watched;
use program_start::{command_line, stand_ins};
use std::process::ExitCode;
pub use words::run_words;

/// Takes the words of the command line, and ends with the status that they lead to.
fn main(rt: HostRuntime) -> ExitCode {
    // no file that is opened takes the place of a closed stream
    let _stand_ins = stand_ins(&rt);
    let alloc = rt.alloc();
    let mut errors = rt.stderr();
    let status = match command_line(&rt) {
        Ok(words) => {
            let mut input = Watched::new(rt.stdin());
            let mut output = Watched::new(rt.stdout());
            run_words(&rt, alloc, &words, &mut input, &mut output, &mut errors)
        }
        Err(refused) => words::without_words(refused.kind(), &mut errors),
    };
    ExitCode::from(status)
}
