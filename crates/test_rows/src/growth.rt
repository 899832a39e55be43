//! Plays a script again and again, each time on a new server: first the server's first allocation
//! is refused, then its second, and so on. In a `! growth` row, an event that finds no memory is
//! tried again. In a `! growth, refused` row, the call of this event is refused, and then sent
//! again.

use crate::CONFIG;
use crate::turns::each;
use crate::words::bad;
use failing_alloc::FailingAllocator;
use std::alloc::Global;
use std::io::{self, BufWriter, Write};
use sv_replay::{Line, read_line};
use sv_server::{Event, Port, Refused, Server};

/// The most bytes that a line may have.
const LONGEST: usize = 1_024;
/// How many connections there may be.
const CONNECTIONS: u8 = 16;

/// The server of a script. Memory may be refused to this server.
type Played<'a> = Server<&'a FailingAllocator<Global>>;

/// A script that is being played, and what it has printed so far.
#[derive(Drop)]
struct Growing<'a> {
    alloc: Global,
    /// What happens if a Turn finds no memory for its call. If true, the call is refused, and then
    /// sent again. If false, only the Turn is tried again.
    refuses: bool,
    server: Played<'a>,
    told: String,
}

/// Appends bytes to `told`, as the line that a replay prints for them. Appends nothing if there are
/// no bytes.
fn tell(told: &mut String, letter: char, conn: u8, bytes: &[u8]) -> io::Result<()> {
    if bytes.is_empty() {
        return Ok(());
    }
    write!(told, "{letter}{conn} ")?;
    for byte in bytes {
        write!(told, "{byte:02x}")?;
    }
    told.push_str("\n")?;
    Ok(())
}

impl Growing<'_> {
    /// Queries the server's state of each connection. Returns the answers as text.
    fn asked(&self) -> io::Result<String> {
        let mut asked = String::new(self.alloc);
        for conn in 0..CONNECTIONS {
            let (ready, faulted) = (self.server.ready(conn), self.server.faulted(conn));
            let (room, dial) = (self.server.room(conn), self.server.dial(conn));
            writeln!(asked, "{ready} {faulted} {room} {dial:?}")?;
            tell(&mut asked, 'c', conn, self.server.waiting(Port::Conn(conn)))?;
            tell(&mut asked, 'i', conn, self.server.waiting(Port::Intr(conn)))?;
        }
        Ok(asked)
    }

    /// Appends to the output the bytes that wait on a port, and lets the peer take them.
    fn take(&mut self, letter: char, conn: u8, port: Port) -> io::Result<()> {
        let bytes = self.server.waiting(port);
        tell(&mut self.told, letter, conn, bytes)?;
        let count = bytes.len().min(65_536) as u32;
        let _ = self.server.apply(Event::Took { port, count });
        Ok(())
    }

    /// Appends to the output the bytes that wait on each connection, and lets the peers take them.
    fn take_connections(&mut self) -> io::Result<()> {
        for conn in 0..CONNECTIONS {
            self.take('c', conn, Port::Conn(conn))?;
        }
        Ok(())
    }

    /// Appends to the output the bytes that wait on each interrupt channel, and lets the peers take
    /// them.
    fn take_channels(&mut self) -> io::Result<()> {
        for conn in 0..CONNECTIONS {
            self.take('i', conn, Port::Intr(conn))?;
        }
        Ok(())
    }

    /// Applies the event of a line. Appends to the output the refusal, if there is one, and the
    /// bytes that then wait on all ports. Returns true if the event found no memory.
    fn apply(&mut self, line: &str) -> io::Result<bool> {
        let mut buffer = [0; LONGEST];
        if line.len() > LONGEST {
            return Err(bad());
        }
        let Some(Line::One(event)) = read_line(line.as_bytes(), &mut buffer) else {
            return Err(bad());
        };
        let mut found_none = false;
        if let Err(refused) = self.server.apply(event) {
            writeln!(self.told, "refused {}", refused as u8)?;
            found_none = matches!(refused, Refused::NoMemory);
        }
        self.take_connections()?;
        self.take_channels()?;
        Ok(found_none)
    }

    /// Handles an event that found no memory. If `refuses` is true, first refuses the event's call,
    /// and sends the call again by `brought`, the `bytes` line that brought the call. Then tries
    /// the event of `line` again.
    fn go_on(&mut self, brought: &str, line: &str) -> io::Result<()> {
        if self.refuses {
            let conn = line.strip_prefix("turn ").unwrap_or("");
            let refused = format!(in self.alloc; "refuse {conn}")?;
            self.apply(&refused)?;
            self.apply(brought)?;
        }
        if self.apply(line)? {
            self.told.push_str("twice\n")?;
        }
        Ok(())
    }

    /// Executes a line. If the line's event finds no memory, tries the event again. If the event
    /// found no memory but changed the server's answers, appends `changed` to the output.
    fn step(&mut self, brought: &str, line: &str) -> io::Result<()> {
        let before = self.asked()?;
        if !self.apply(line)? {
            return Ok(());
        }
        if self.asked()? != before {
            self.told.push_str("changed\n")?;
        }
        self.go_on(brought, line)
    }
}

/// Begins to play a script: makes a new server, and executes no line yet. If memory for the server
/// is refused, makes the server again.
fn start<'a>(
    alloc: Global,
    heap: &'a FailingAllocator<Global>,
    refuses: bool,
) -> io::Result<Growing<'a>> {
    let mut told = String::new(alloc);
    let server = match Server::new(heap, CONFIG) {
        Ok(server) => server,
        Err(_) => {
            told.push_str("no server\n")?;
            Server::new(heap, CONFIG)?
        }
    };
    Ok(Growing {
        alloc,
        refuses,
        server,
        told,
    })
}

/// Plays the lines of a script, and returns what they print.
fn play_on(play: &mut Growing<'_>, script: &str) -> io::Result<String> {
    let mut brought = "";
    for line in script.lines() {
        play.step(brought, line)?;
        if line.starts_with("bytes ") {
            brought = line;
        }
    }
    Ok(play.told.clone()?)
}

/// Plays a script one time, and returns what it prints. `heap` may refuse one allocation.
fn outcome(
    alloc: Global,
    heap: &FailingAllocator<Global>,
    refuses: bool,
    script: &str,
) -> io::Result<String> {
    let mut play = start(alloc, heap, refuses)?;
    play_on(&mut play, script)
}

/// Prints the outcomes of a script: first the server's first allocation is refused, then its
/// second, and so on.
pub(crate) fn play<W: Write + Drop>(
    alloc: Global,
    refuses: bool,
    script: &str,
    writer: &mut BufWriter<W>,
) -> io::Result<()> {
    each(alloc, |heap| outcome(alloc, heap, refuses, script), writer)
}
