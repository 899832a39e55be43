//! A server over sockets, its peers, and the time.

use crate::sockets::peer::Peer;
use crate::words::bad;
use std::alloc::Global;
use std::io::{self, Error, ErrorKind};
use std::time::{Clock, Duration, Instant};
use sv_net::{Control, Net, System, Watch, serve};
use sv_replay::{Entry, read_scenario};
use sv_serve::Driver;
use sv_server::{Config, Port, Server};

/// The ports of the core channel, the abort channel and the port mapper.
pub(crate) const PORTS: [u16; 3] = [24196, 24197, 24198];
/// The control port.
pub(crate) const CONTROL: u16 = 24200;
/// How many seconds a peer waits at most for bytes or for a connection.
const PATIENCE: u64 = 10;
/// The most tries to listen. The program sleeps 20 milliseconds after each try.
const TRIES: u32 = 2_000;
/// The most times that the program looks for bytes or a connection during one wait.
const LOOKS: u32 = 10_000_000;
/// How many sweeps the server makes between two checks of whether bytes have come to a peer, if the
/// row doesn't say. The time after the last of these sweeps doesn't pass for the server.
const SWEEPS: u32 = 2;
/// For a row that compares which of two peers gets its bytes first: how many sweeps the server
/// makes between two checks.
const MORE_SWEEPS: u32 = 4;

/// The error for a peer that waited too long.
fn late() -> Error {
    Error::from(ErrorKind::TimedOut)
}

/// Listens on the ports. Waits while another run of this program uses them.
fn listen(rt: HostRuntime) -> io::Result<(Watch<Global>, Net<HostRuntime, Global>)> {
    for _ in 0..TRIES {
        match Watch::listen(rt, rt.alloc(), PORTS) {
            Ok(made) => return Ok(made),
            Err(error) => match error.kind() {
                ErrorKind::AddrInUse => rt.sleep(Duration::from_millis(20)),
                _ => return Err(error),
            },
        }
    }
    Err(late())
}

/// The driver with which a row is played.
type Played = Driver<Net<HostRuntime, Global>, Global>;

/// Makes a driver of a new server over these sockets, with this scenario.
fn driver_over(
    alloc: Global,
    net: Net<HostRuntime, Global>,
    scenario: Vec<Entry>,
) -> io::Result<Played> {
    let config = Config {
        core: PORTS[0],
        abort: PORTS[1],
        clock: 0,
    };
    let server = Server::new(alloc, config)?;
    Ok(Driver::new(alloc, server, net, scenario)?)
}

/// A server with its peers.
#[derive(Drop)]
pub(crate) struct Stage {
    pub(crate) rt: HostRuntime,
    watch: Watch<Global>,
    control: Option<Control>,
    driver: Played,
    pub(crate) peers: Vec<Peer>,
    /// How many sweeps the server makes between two checks of whether bytes have come to a peer.
    pub(crate) sweeps: u32,
    /// When the measurement of time started.
    start: Instant,
}

impl Stage {
    /// Makes a new server with this scenario, and no peers.
    pub(crate) fn new(rt: HostRuntime, scenario: &str) -> io::Result<Stage> {
        let Ok(scenario) = read_scenario(rt.alloc(), scenario.as_bytes()) else {
            return Err(bad());
        };
        let start = Instant::now(&rt)?;
        let (watch, net) = listen(rt)?;
        Ok(Stage {
            rt,
            watch,
            control: None,
            driver: driver_over(rt.alloc(), net, scenario)?,
            peers: Vec::new(rt.alloc()),
            sweeps: SWEEPS,
            start,
        })
    }

    /// The peer of this letter.
    pub(crate) fn peer(&mut self, name: char) -> io::Result<&mut Peer> {
        match self.peers.iter_mut().find(|peer| peer.name == name) {
            Some(peer) => Ok(peer),
            None => Err(bad()),
        }
    }

    /// Listens on the control port.
    pub(crate) fn open_control(&mut self) -> io::Result<()> {
        self.control = Some(self.watch.control(&self.rt, self.rt.alloc(), CONTROL)?);
        Ok(())
    }

    /// Makes this number of sweeps.
    pub(crate) fn serve(&mut self, sweeps: u32) -> io::Result<()> {
        let mut machine = System::begin(&self.rt, &mut self.watch, &mut self.control)?;
        serve(&mut machine, &mut self.driver, sweeps)
    }

    /// Whether bytes wait in the server to be sent on at least one of the sixteen connections.
    pub(crate) fn waits(&self) -> bool {
        let server = self.driver.server();
        (0..16).any(|conn| !server.waiting(Port::Conn(conn)).is_empty())
    }

    /// Starts a time measurement.
    pub(crate) fn begin(&mut self) -> io::Result<()> {
        self.start = Instant::now(&self.rt)?;
        Ok(())
    }

    /// How many whole milliseconds have passed since the start of the time measurement.
    pub(crate) fn passed(&self) -> io::Result<u128> {
        Ok(self.start.elapsed(&self.rt)?.as_millis())
    }

    /// Lets a peer send and read what it can. Returns true if at least this many bytes have come to
    /// the peer, or if the peer's stream has ended.
    fn has(&mut self, name: char, count: usize) -> io::Result<bool> {
        let peer = self.peer(name)?;
        peer.send()?;
        peer.hear()?;
        Ok(peer.ended || peer.came.len() >= count)
    }

    /// Makes this number of sweeps. Fails if ten seconds have passed since `begun`, the moment at
    /// which a peer began to wait.
    fn serve_on(&mut self, begun: Instant, sweeps: u32) -> io::Result<()> {
        if begun.elapsed(&self.rt)?.as_secs() >= PATIENCE {
            return Err(late());
        }
        self.serve(sweeps)
    }

    /// Makes sweeps until this many bytes have come to a peer, or until the peer's stream has
    /// ended.
    ///
    /// # Errors
    /// If nothing comes to the peer for ten seconds.
    pub(crate) fn wait_for(&mut self, name: char, count: usize) -> io::Result<()> {
        let (mut begun, mut came) = (Instant::now(&self.rt)?, 0usize);
        for _ in 0..LOOKS {
            if self.has(name, count)? {
                return Ok(());
            }
            let now = self.peer(name)?.came.len();
            if now > came {
                (begun, came) = (Instant::now(&self.rt)?, now);
            }
            self.serve_on(begun, self.sweeps)?;
        }
        Err(late())
    }

    /// Makes sweeps until a connection has come to the port on which a peer listens.
    ///
    /// # Errors
    /// If no connection comes for ten seconds.
    pub(crate) fn accept(&mut self, name: char) -> io::Result<()> {
        let begun = Instant::now(&self.rt)?;
        for _ in 0..LOOKS {
            if self.peer(name)?.accept()? {
                return Ok(());
            }
            self.serve_on(begun, SWEEPS)?;
        }
        Err(late())
    }

    /// Makes sweeps until bytes have come to the peer `second`. Returns whether bytes have come to
    /// the peer `first` by then. Each check looks at the second peer before it looks at the first
    /// peer.
    ///
    /// # Errors
    /// If no bytes come to the second peer for ten seconds.
    pub(crate) fn is_first(&mut self, first: char, second: char) -> io::Result<bool> {
        let begun = Instant::now(&self.rt)?;
        for _ in 0..LOOKS {
            let came = self.has(second, 1)?;
            let so = self.has(first, 1)?;
            if came {
                return Ok(so);
            }
            self.serve_on(begun, MORE_SWEEPS)?;
        }
        Err(late())
    }
}
