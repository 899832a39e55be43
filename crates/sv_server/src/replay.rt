//! The replay of an event: applies the event, prints the bytes that then wait to be sent, and
//! treats these bytes as taken by the peers. Of the server, the replay uses queries, `apply`, and
//! the function that takes bytes from a port.

ghost use Rattle.std.specs.Prelude.{◌≡◌, ◌≤◌, ◌<◌, ℕ, List, []};
ghost use Rattle.std.specs.Io.KnownBytes.{Appends};
ghost use Rattle.sv_history.specs.declared.event.Config.{Config};
ghost use Rattle.sv_history.specs.declared.event.Did.{Did};
ghost use Rattle.sv_history.specs.Event.{PlainEvent, plain};
ghost use Rattle.sv_links.specs.Channels.{ChannelAct};
ghost use Rattle.sv_history.specs.Act.{Act};
ghost use Rattle.sv_server.specs.Server.State.{StandsFor};
ghost use Rattle.sv_history.specs.Connection.{waiting_on};
ghost use Rattle.sv_history.specs.Print.{port_of, is_no_memory};
ghost use Rattle.sv_server.specs.Replay.Replays.{Replays};
ghost use Rattle.sv_history.specs.History.{IsLogOf, Answers, history_after};
ghost use Rattle.sv_server.specs.Replay.Inside.Showing.{StandsBy, ShowsPort, ShowsAll, Left};

pub mod print;

use crate::replay::print::{put_line, put_refusal};
use crate::server::Server;
use std::alloc::Allocator;
use std::io::Write;
use sv_history::{Did, Event, Port, Refused};
use sv_print::WriteFault;
use thiserror::Error;

/// Why a replay stopped.
#[derive(Clone, Copy, Debug, Error)]
pub enum ReplayFault {
    /// There was no memory for an event.
    #[error("no memory was left")]
    NoMemory,
    /// The writer failed.
    #[error("the output can't be written")]
    Write,
}

impl From<WriteFault> for ReplayFault {
    ghost use Rattle.sv_server.specs.declared.replay.ReplayFault.{ReplayFault};
    ghost use Rattle.sv_server.specs.declared.replay.ReplayFault.TheVariants.{Write as WriteFailed};

    ghost from_gives = { λ failed fault. fault ≡ WriteFailed };

    fn from(_: WriteFault) -> ReplayFault {
        ReplayFault::Write
    }
}

impl<A: Allocator> Server<A> {
    /// Applies an event and writes the results: `refused` and the number of the refusal, if the
    /// event was refused; then, for each port on which bytes wait, a line with these bytes. Bytes
    /// that were written count as taken by the peer.
    ///
    /// # Errors
    /// `NoMemory` if there was no memory for the event; then only `refused 1` is written. `Write`
    /// if the writer failed; then only bytes that were written count as taken by the peer.
    pub fn replay<W: Write>(&mut self, event: Event<'_>, writer: &mut W) -> Result<(), ReplayFault>
        ensures { (config : Config) (history : List PlainEvent) → StandsFor self.old config history
            → (text : List ℕ) × (after : List PlainEvent)
            × Replays config history (plain event.entry) result text after
            × StandsFor self.new config after
            × Appends (W.contents writer.old) (W.contents writer.new) text }
    {
        let did = self.apply(event);
        self.print(did, writer)
    }

    /// Writes the lines for an event that was applied or refused, and drops the bytes that the
    /// lines show. Says whether the replay goes on.
    pub(crate) fn print<W: Write>(
        &mut self,
        did: Result<Did, Refused>,
        writer: &mut W,
    ) -> Result<(), ReplayFault>
        ensures { (config : Config) (history : List PlainEvent) (event : PlainEvent)
            (log : List Act) → IsLogOf config history log → Answers config event log did
            → StandsFor self.old config (history_after event did history)
            → Left config history event log did result self.new
            (W.contents writer.old) (W.contents writer.new) }
    {
        match did {
            Ok(_) => {
                self.show_all(writer)?;
                Ok(())
            }
            Err(refused) => {
                put_refusal(writer, refused)?;
                if is_no_memory(refused) {
                    return Err(ReplayFault::NoMemory);
                }
                self.show_all(writer)?;
                Ok(())
            }
        }
    }

    /// Writes the lines of all ports on which bytes wait to be sent, and drops the bytes that the
    /// lines show.
    fn show_all<W: Write>(&mut self, writer: &mut W) -> Result<(), WriteFault>
        ensures { (config : Config) (history : List PlainEvent) (channel_log : List ChannelAct)
            (log : List Act) → StandsBy self.old config history channel_log log
            → (text : List ℕ) × Appends (W.contents writer.old) (W.contents writer.new) text
            × ShowsAll config history channel_log log result self.new text }
    {
        for number in 0..self.port_limit() {
            self.show(port_of(number), writer)?;
        }
        Ok(())
    }

    /// How many ports, in the order of their lines, can have bytes: connections that were never
    /// opened have none, and if no interrupt channel was ever opened, no channel has any.
    fn port_limit(&self) -> u8
        ensures bounded { result ≤ 32 }
        ensures none { (config : Config) (history : List PlainEvent)
            (channel_log : List ChannelAct) (log : List Act) (number : ℕ)
            → StandsBy self.now config history channel_log log
            → result ≤ number → number < 32 → waiting_on channel_log (port_of number) log ≡ [] }
    {
        if self.device.was_channel_opened() {
            32
        } else {
            self.connections_used.min(16)
        }
    }

    /// Writes the line of a port, if bytes wait to be sent on the port, and drops the bytes that
    /// the line shows.
    fn show<W: Write>(&mut self, port: Port, writer: &mut W) -> Result<(), WriteFault>
        ensures { (config : Config) (history : List PlainEvent) (channel_log : List ChannelAct)
            (log : List Act) → StandsBy self.old config history channel_log log
            → (text : List ℕ) × Appends (W.contents writer.old) (W.contents writer.new) text
            × ShowsPort port config history channel_log log result self.new text }
    {
        let bytes = self.outgoing(port);
        let count = bytes.len() as u32;
        put_line(writer, port, bytes)?;
        if count > 0 {
            let _ = self.port_took(port, count);
        }
        Ok(())
    }
}

/// Whether an event was refused because there was no memory. This is the only refusal that the
/// history doesn't determine.
pub fn is_no_memory(refused: Refused) -> bool
    ensures { result ≡ is_no_memory refused }
{
    matches!(refused, Refused::NoMemory)
}

/// The port with this number in the order in which a replay prints the lines of ports: 0 to 15 are
/// the connections, 16 to 31 are their interrupt channels.
fn port_of(number: u8) -> Port
    ensures { result ≡ port_of number }
{
    if number < 16 {
        Port::Conn(number)
    } else {
        Port::Intr(number - 16)
    }
}
