//! The program: its command line over the standard streams.
#![tactic(auto)]

ghost use Rattle.std.specs.Prelude.{◌≡◌, ◌<◌};
ghost use Rattle.hsmake.specs.Exit.{status_number};

use hsmake_top::run::run_alone;
use mk_base::status::Status;
use mk_base::steps::{Steps, Tokens};
use std::env;
use std::io::{ErrorKind, Result};
use std::marker::Brand;
use std::process::ExitCode;
use std::sync::ledger::{Blank, Ledger};
use std::thread::Threads;
use std_streams::streams::{Input, Output};

/// The exit status of the program: the number of the variant.
fn exit_status(status: Status) -> u8
    ensures { result ≡ status_number status }
{
    match status {
        Status::Done => 0,
        Status::Failed => 1,
        Status::Usage => 2,
        Status::ReadFault => 3,
        Status::NoMemory => 4,
        Status::WriteFault => 5,
        Status::StoreFault => 6,
        Status::BadScript => 7,
    }
}

/// The words of the command line. One that isn't UTF-8 makes a faulty command line, as does none.
fn command_line(rt: &HostRuntime) -> Result<Vec<String>> {
    let mut words = Vec::new(rt.alloc());
    match env::args(rt) {
        Ok(all) => {
            for word in all.skip(1) {
                words.push(word)?;
            }
        }
        Err(error) => {
            if error.kind() != ErrorKind::InvalidData {
                return Err(error);
            }
        }
    }
    Ok(words)
}

/// Runs the command line over the standard streams, with a counter that nobody else has.
fn run_counted<K: Ledger, R: Threads>(rt: &HostRuntime, threads: &R, blank: Blank) -> Status
    requires name { blank.name ≡ K.name }
    requires parts { blank.parts ≡ K.parts }
    requires one { 0 < blank.parts }
{
    let Ok(words) = command_line(rt) else {
        return Status::NoMemory;
    };
    let (book, share) = blank.open::<K>();
    let mut steps = Steps::new(threads, Tokens { book, share });
    let mut input = Input {
        stream: rt.stdin(),
        faults: 0,
    };
    let mut output = Output {
        stream: rt.stdout(),
        faults: 0,
    };
    run_alone(rt.alloc(), &words, &mut input, &mut output, &mut steps)
}

fn main(rt: HostRuntime) -> ExitCode {
    let status = run_counted::<Brand, _>(&rt, &rt, Blank::new(1));
    ExitCode::from(exit_status(status))
}
