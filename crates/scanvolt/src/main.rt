//! The main function of the program scanvolt, which replays, explains and serves.
#![tactic(auto)]

mod serving;

use std::alloc::Global;
use std::env;
use std::io::{self, BufWriter, Error, ErrorKind, Printer};
use std::process::ExitCode;
use sv_net::{ProgramFault, Words, read_words};
use sv_replay::{Mode, Ports, RunFault, run_script};

/// Runs the program. The command `replay` replays a script from the standard input; the command
/// `explain` does so too, and says what each step changes; the command `serve` serves clients over
/// sockets.
fn main(rt: HostRuntime) -> ExitCode {
    match program(&rt) {
        Ok(()) => ExitCode::SUCCESS,
        Err(fault) => {
            let _ = eprintln!(rt; "scanvolt: {fault}");
            ExitCode::from(fault.status())
        }
    }
}

/// Reads the command line, and replays or serves as it says.
fn program(rt: &HostRuntime) -> Result<(), ProgramFault> {
    let words = own_words(rt)?;
    match read_words(rt.alloc(), words.get(1..).unwrap_or(&[]))? {
        Words::Replay(ports) => Ok(script(rt, ports, Mode::Plain)?),
        Words::Explain(ports) => Ok(script(rt, ports, Mode::Explained)?),
        Words::Server(serve) => serving::serve(rt, &serve),
    }
}

/// Returns the words of the command line, with the name of the program first.
fn own_words(rt: &HostRuntime) -> Result<Vec<String<Global>, Global>, ProgramFault> {
    let words = env::args(rt).map_err(|error| words_fault(&error))?;
    Ok(words.collect(rt.alloc())?)
}

/// Returns the program's fault if the command line can't be read: memory was refused, or a word
/// isn't text.
fn words_fault(error: &Error) -> ProgramFault {
    match error.kind() {
        ErrorKind::OutOfMemory => ProgramFault::Run(RunFault::Memory),
        _ => ProgramFault::BadWords,
    }
}

/// Runs the script of the standard input. Prints to the standard output.
fn script(rt: &HostRuntime, ports: Ports, mode: Mode) -> Result<(), RunFault> {
    let mut writer = printer(rt)?;
    run_script(rt.alloc(), ports, mode, &mut rt.reader(), &mut writer)
}

/// Returns a buffer for what is printed to the standard output.
fn printer(rt: &HostRuntime) -> Result<BufWriter<Printer<'_, HostRuntime>, Global>, RunFault> {
    BufWriter::new(rt.alloc(), io::writer(rt)).map_err(|_| RunFault::Memory)
}
