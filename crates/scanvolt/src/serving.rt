//! Serves clients over sockets.

use std::alloc::Global;
use std::fs::{self, File};
use std::io::{BufWriter, Error, ErrorKind};
use sv_net::{Control, Net, ProgramFault, Serve, System, Watch};
use sv_recording::Tape;
use sv_replay::{Entry, RunFault, read_scenario};
use sv_serve::{Driver, Journal};
use sv_server::{Config, Server};

/// Returns the program's fault for an error of the system: `Memory` if the error says that memory
/// was refused, else `other`.
fn fault_or(error: &Error, other: ProgramFault) -> ProgramFault {
    match error.kind() {
        ErrorKind::OutOfMemory => ProgramFault::Run(RunFault::Memory),
        _ => other,
    }
}

/// Reads the scenario from the file at `path`.
fn scenario(rt: &HostRuntime, path: &str) -> Result<Vec<Entry, Global>, ProgramFault> {
    let text = fs::read(rt, path).map_err(|error| fault_or(
        &error,
        ProgramFault::Run(RunFault::Input),
    ))?;
    Ok(read_scenario(rt.alloc(), &text)?)
}

/// Listens on the three ports of the command line.
fn listen(
    rt: &HostRuntime,
    words: &Serve<'_>,
) -> Result<(Watch<Global>, Net<HostRuntime>), ProgramFault> {
    let ports = [words.core, words.abort, words.portmap];
    Watch::listen(*rt, rt.alloc(), ports).map_err(|error| fault_or(&error, ProgramFault::Socket))
}

/// Listens on the control port, if there is one.
fn control(
    rt: &HostRuntime,
    words: &Serve<'_>,
    watch: &Watch<Global>,
) -> Result<Option<Control>, ProgramFault> {
    match words.control {
        None => Ok(None),
        Some(port) => match watch.control(rt, rt.alloc(), port) {
            Ok(control) => Ok(Some(control)),
            Err(error) => Err(fault_or(&error, ProgramFault::Socket)),
        },
    }
}

/// Makes a server for the ports of the command line, and its driver. The server's clock starts at
/// 0.
fn driver<J: Journal + Drop>(
    rt: &HostRuntime,
    words: &Serve<'_>,
    net: Net<HostRuntime>,
    scenario: Vec<Entry, Global>,
    journal: J,
) -> Result<Driver<Net<HostRuntime>, Global, J>, ProgramFault> {
    let config = Config {
        core: words.core,
        abort: words.abort,
        clock: 0,
    };
    let server = Server::new(rt.alloc(), config)?;
    Ok(Driver::with_journal(rt.alloc(), server, net, scenario, journal)?)
}

/// The journal of a session that is recorded in a file.
type Recording = Tape<BufWriter<File, Global>>;

/// Makes the file at `path`, in which the session is recorded. A file that is there already loses
/// what it has.
fn recording(rt: &HostRuntime, path: &str) -> Result<Recording, ProgramFault> {
    let output = ProgramFault::Run(RunFault::Output);
    let file = fs::create(rt, path).map_err(|error| fault_or(&error, output))?;
    let writer = BufWriter::new(rt.alloc(), file).map_err(|error| fault_or(&error, output))?;
    Ok(Tape::new(writer))
}

/// Prints `ready` and the ports.
fn print_ready(rt: &HostRuntime, words: &Serve<'_>) -> Result<(), ProgramFault> {
    let (core, abort, portmap) = (words.core, words.abort, words.portmap);
    let printed = match words.control {
        None => println!(rt; "ready {core} {abort} {portmap}"),
        Some(control) => println!(rt; "ready {core} {abort} {portmap} {control}"),
    };
    printed.map_err(|_| ProgramFault::Run(RunFault::Output))
}

/// Prints `ready` and the ports, and makes the sweeps.
fn sweep<J: Journal + Drop>(
    rt: &HostRuntime,
    words: &Serve<'_>,
    watch: &mut Watch<Global>,
    control: &mut Option<Control>,
    driver: &mut Driver<Net<HostRuntime>, Global, J>,
) -> Result<(), ProgramFault> {
    print_ready(rt, words)?;
    let mut machine = System::begin(rt, watch, control).map_err(|_| ProgramFault::Socket)?;
    sv_net::serve(&mut machine, driver, words.sweeps).map_err(|_| ProgramFault::Socket)
}

/// Listens on the ports, prints `ready` and the ports, and makes the sweeps. Returns the journal,
/// with the fault that ended the session, if there was one.
fn run<J: Journal + Drop>(
    rt: &HostRuntime,
    words: &Serve<'_>,
    scenario: Vec<Entry, Global>,
    journal: J,
) -> Result<(J, Result<(), ProgramFault>), ProgramFault> {
    let (mut watch, net) = listen(rt, words)?;
    let mut control = control(rt, words, &watch)?;
    let mut driver = driver(rt, words, net, scenario, journal)?;
    let made = sweep(rt, words, &mut watch, &mut control, &mut driver);
    Ok((driver.into_journal(), made))
}

/// Serves sockets on ports of 127.0.0.1, and records the session if the command line says so.
/// Prints `ready` and the ports when it listens on them.
pub(crate) fn serve(rt: &HostRuntime, words: &Serve<'_>) -> Result<(), ProgramFault> {
    let scenario = scenario(rt, words.scenario)?;
    match words.record {
        None => run(rt, words, scenario, ())?.1,
        Some(path) => {
            let (mut tape, made) = run(rt, words, scenario, recording(rt, path)?)?;
            if tape.end() {
                made
            } else {
                Err(ProgramFault::Run(RunFault::Output))
            }
        }
    }
}
