//! A bare echo server, with which scanvolt is compared in measurements. `echo PORT LOOKS` listens
//! on a port of 127.0.0.1, and sends back what it reads. It polls and sleeps as scanvolt does
//! between sweeps. It prints `ready PORT`, and ends after `LOOKS` polls.
#![tactic(auto)]

mod connection;
mod serving;

use serving::serve;
use std::env;
use std::io::{self, Error, ErrorKind};
use std::process::ExitCode;

fn main(rt: HostRuntime) -> ExitCode {
    match program(&rt) {
        Ok(()) => ExitCode::SUCCESS,
        Err(_) => {
            let _ = eprintln!(rt; "usage: echo PORT LOOKS");
            ExitCode::from(2)
        }
    }
}

/// Reads the port and the number of polls from the command line, and serves the port.
fn program(rt: &HostRuntime) -> io::Result<()> {
    let mut words = env::args(rt)?;
    let _program = words.next();
    let (Some(port), Some(looks)) = (words.next(), words.next()) else {
        return Err(Error::from(ErrorKind::InvalidInput));
    };
    match (port.parse::<u16>(), looks.parse::<u32>()) {
        (Ok(port), Ok(looks)) => serve(rt, port, looks),
        _ => Err(Error::from(ErrorKind::InvalidInput)),
    }
}
