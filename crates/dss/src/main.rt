//! `dss`: replays a Distributed Secure System.
#![tactic(auto)]

use dss_io::{StdSink, StdSource};
use replay::{Status, run};
use ring_link::NoGate;
use std::process::ExitCode;
use std::{env, io};

/// What is printed where the words have none of the forms.
const USAGE: &str = "usage: dss replay | check | wire | twin LEVEL | drill SEED COUNT";

/// The words behind the program's name.
fn words(rt: &HostRuntime) -> io::Result<Vec<String>> {
    let mut words = Vec::new(rt.alloc());
    for word in env::args(rt)?.skip(1) {
        words.push(word)?;
    }
    Ok(words)
}

fn main(rt: HostRuntime) -> ExitCode {
    let status = match words(&rt) {
        Ok(words) => {
            let mut source = StdSource::new(rt.stdin());
            let mut sink = StdSink::new(rt.stdout());
            let mut kept = None;
            run(
                &rt,
                rt.alloc(),
                &words,
                &mut source,
                &mut sink,
                &NoGate,
                &mut kept,
            )
        }
        Err(error) if error.kind() == io::ErrorKind::OutOfMemory => Status::OutOfMemory,
        Err(_) => Status::Usage,
    };
    if status == Status::Usage {
        let _ = eprintln!(rt; "{USAGE}");
    }
    ExitCode::from(status.code())
}
