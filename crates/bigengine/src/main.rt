//! The program: `engine` over the words of the command line, the standard input and the standard output.
#![tactic(auto)]

use bg_cond::OpenGate;
use bg_io::{StdSink, StdSource};
use bg_top::{NO_MEMORY, engine};
use bg_watch::{LastRule, Peak, Tally, Watcher};
use std::process::ExitCode;
use std::{env, io};

/// The words of the command line. Where one of them is no text there are none, and `engine` refuses those.
fn words(rt: &HostRuntime) -> io::Result<Vec<String>> {
    let mut words = Vec::new(rt.alloc());
    match env::args(rt) {
        Ok(args) => {
            for word in args {
                words.push(word)?;
            }
        }
        Err(error) => {
            if error.kind() == io::ErrorKind::OutOfMemory {
                return Err(error);
            }
        }
    }
    Ok(words)
}

fn main(rt: HostRuntime) -> ExitCode {
    let mut source = StdSource::new(rt.stdin());
    let mut sink = StdSink::new(rt.stdout());
    let mut watchers: Vec<Box<dyn Watcher>> = Vec::new(rt.alloc());
    let (Ok(words), Ok(tally), Ok(last_rule), Ok(peak)) = (
        words(&rt),
        Box::new(rt.alloc(), Tally::new()),
        Box::new(rt.alloc(), LastRule::new()),
        Box::new(rt.alloc(), Peak::new()),
    ) else {
        return ExitCode::from(NO_MEMORY);
    };
    if watchers.push(tally).is_err()
        || watchers.push(last_rule).is_err()
        || watchers.push(peak).is_err()
    {
        return ExitCode::from(NO_MEMORY);
    }
    ExitCode::from(engine(
        &rt,
        rt.alloc(),
        &words,
        &mut source,
        &mut sink,
        &mut watchers,
        &OpenGate,
    ))
}
