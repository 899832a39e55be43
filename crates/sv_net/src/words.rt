//! The words of the command line.

ghost use Rattle.std.specs.Prelude.{◌≡◌, Decides, codes, map};
ghost use Rattle.std.specs.List.{Contains};
ghost use Rattle.clap.specs.Values.{kind_of};
ghost use Rattle.sv_net.specs.Words.{AsksToReplay, AsksToServe, AsksFor, ReadsWords, IsUsageFault};

mod options;

use crate::fault::ProgramFault;
use crate::words::options::{ports, replay_command, serve_command, told};
use clap::Error;
use clap::error::ErrorKind;
use std::alloc::Global;
use std::convert::AsStr;
use sv_replay::{Ports, RunFault};

/// What the words tell the program to do.
#[derive(Clone, Copy, Debug)]
pub enum Words<'a> {
    /// Replay the script that comes on the standard input, on a server with these ports.
    Replay(Ports),
    /// Replay the script, and explain what each step changes.
    Explain(Ports),
    /// Run a server.
    Server(Serve<'a>),
}

/// What the command line says about the server to run.
#[derive(Clone, Copy, Debug)]
pub struct Serve<'a> {
    /// The TCP port of the core channel, 1 to 65535.
    pub core: u16,
    /// The TCP port of the abort channel, 1 to 65535.
    pub abort: u16,
    /// The TCP port of the port mapper, 1 to 65535.
    pub portmap: u16,
    /// The path of the scenario.
    pub scenario: &'a str,
    /// The number of sweeps after which the server ends, at least 1.
    pub sweeps: u32,
    /// The path of the file in which the session is recorded; `None` if it isn't.
    pub record: Option<&'a str>,
    /// The TCP port on which stimuli come, 1 to 65535; `None` if there is none.
    pub control: Option<u16>,
}

/// Reads the words after the program's name: `replay`, `explain` or `serve`, and options in any
/// order, each at most one time and with its value.
///
/// - `replay` and `explain` have `--core` and `--abort`, both or none. Without them, the ports are
///   4096 and 4097.
/// - `serve` needs `--core`, `--abort`, `--portmap`, `--scenario` with a path, and `--sweeps` with
///   1 to 4,294,967,295. It can have `--record` with a path, and `--control`.
///
/// The values of `--core`, `--abort`, `--portmap` and `--control` are ports of 1 to 65535. A number
/// has 1 to 10 decimal digits. No further word is allowed, and no `--`.
///
/// # Errors
/// `Run(Memory)` if memory is refused; `BadWords` if the words are anything else.
pub fn read_words<'a, S: AsStr>(alloc: Global, words: &'a [S]) -> Result<Words<'a>, ProgramFault>
    ensures { ReadsWords (AsksFor (map S.text words.now)) result }
{
    let Some(first) = words.first() else {
        return Err(ProgramFault::BadWords);
    };
    let word = first.as_str();
    if word == "serve" {
        Ok(Words::Server(read_serve(alloc, words)?))
    } else if word == "replay" {
        Ok(Words::Replay(read_ports(alloc, words)?))
    } else if word == "explain" {
        Ok(Words::Explain(read_ports(alloc, words)?))
    } else {
        Err(ProgramFault::BadWords)
    }
}

/// Reads the word `replay` or `explain` and the options after it.
fn read_ports<'a, S: AsStr>(alloc: Global, words: &'a [S]) -> Result<Ports, ProgramFault>
    ensures { ReadsWords (AsksToReplay (map S.text words.now)) result }
{
    if has_end_of_options(words) {
        return Err(ProgramFault::BadWords);
    }
    let Ok(command) = replay_command(alloc) else {
        return Err(ProgramFault::Run(RunFault::Memory));
    };
    match command.try_get_matches_from(words) {
        Ok(matches) => match ports(&matches) {
            Some(ports) => Ok(ports),
            None => Err(ProgramFault::BadWords),
        },
        Err(error) => Err(refused(&error)),
    }
}

/// Reads the word `serve` and the options after it.
fn read_serve<'a, S: AsStr>(alloc: Global, words: &'a [S]) -> Result<Serve<'a>, ProgramFault>
    ensures { ReadsWords (AsksToServe (map S.text words.now)) result }
{
    if has_end_of_options(words) {
        return Err(ProgramFault::BadWords);
    }
    let Ok(command) = serve_command(alloc) else {
        return Err(ProgramFault::Run(RunFault::Memory));
    };
    match command.try_get_matches_from(words) {
        Ok(matches) => match told(&matches) {
            Some(serve) => Ok(serve),
            None => Err(ProgramFault::BadWords),
        },
        Err(error) => Err(refused(&error)),
    }
}

/// Whether some word is `--`. Clap would accept it as the end of the options, but this program
/// doesn't.
fn has_end_of_options<S: AsStr>(words: &[S]) -> bool
    ensures { Decides result (Contains (map S.text words.now) (codes "--")) }
{
    words.iter().any(|word| word.as_str() == "--")
}

/// Returns the fault of words that clap refused.
fn refused(error: &Error) -> ProgramFault
    ensures { IsUsageFault (kind_of error.now) result }
{
    match error.kind() {
        ErrorKind::OutOfMemory => ProgramFault::Run(RunFault::Memory),
        _ => ProgramFault::BadWords,
    }
}
