//! The program: the words of its command line, standard input and standard output.
#![tactic(auto)]

use pm_top::{Status, StdSink, StdSource, top};
use std::env;
use std::io::ErrorKind;
use std::process::ExitCode;

/// The words after the program's name, unless memory is wanting. A word that isn't UTF-8 makes them no words at all,
/// which is a faulty command line too.
fn words(rt: &HostRuntime) -> Option<Vec<String>> {
    let mut words = Vec::new(rt.alloc());
    match env::args(rt) {
        Ok(args) => {
            for word in args.skip(1) {
                words.push(word).ok()?;
            }
        }
        Err(e) if e.kind() == ErrorKind::OutOfMemory => return None,
        Err(_) => {}
    }
    Some(words)
}

fn run(rt: &HostRuntime) -> Status {
    match words(rt) {
        None => Status::Memory,
        Some(words) => {
            let mut source = StdSource::new(rt.stdin());
            let mut sink = StdSink::new(rt.stdout());
            top(rt.alloc(), &words, &mut source, &mut sink)
        }
    }
}

fn main(rt: HostRuntime) -> ExitCode {
    ExitCode::from(run(&rt) as u8)
}
