//! The wire that records calls.

ghost use Rattle.std.specs.Prelude.{◌≡◌, [], true, map, reverse, length, IfOk};
ghost use Rattle.sv_serve.specs.Heard.{Heard, WasRead, WasWritten, bytes_of, IsWithin};
ghost use Rattle.sv_recording.specs.Recorded.{heard_of, Keeps};

use crate::call::Call;
use std::alloc::{AllocError, Global};
use std::marker::Model;
use sv_serve::{Answer, Wire};
use sv_server::{Dial, Port, Role};

/// A wire that passes each call of its methods to the wire `wire`, and records the call with its
/// answer, in order. If memory for a call is refused, that call isn't recorded, and `is_whole` is
/// false from then on.
#[derive(Drop)]
pub struct Recorder<W: Wire + Drop> {
    alloc: Global,
    wire: W,
    calls: Vec<Call>,
    is_whole: bool,
}

impl<W: Wire + Drop> Model for Recorder<W> {
    ghost use Rattle.std.specs.Prelude.{map, reverse, ⊤};
    ghost use Rattle.sv_recording.specs.Recorded.{Recording, heard_of};

    ghost Value = { Recording W };

    ghost view = { λ a. record {
      wire = a.wire;
      trace = reverse (map heard_of a.calls.items);
      is_whole = a.is_whole;
    } };

    ghost invariant = { λ a. ⊤ };
}

/// Returns the `Call` that records a read: the read's answer, with the bytes that were read into
/// the buffer.
fn read_call(
    alloc: Global,
    conn: u8,
    answer: Answer<usize>,
    buffer: &[u8],
) -> Result<Call, AllocError>
    requires { IsWithin answer (length buffer.now) }
    ensures { IfOk result (λ call. heard_of call
        ≡ WasRead conn (length buffer.now) (bytes_of answer buffer.now)) }
{
    let answer = match answer {
        Answer::Got(count) => Answer::Got(Vec::from_slice(alloc, &buffer[..count])?),
        Answer::Pending => Answer::Pending,
        Answer::Failed => Answer::Failed,
    };
    let most = buffer.len();
    Ok(Call::Read { conn, most, answer })
}

/// Returns the `Call` that records a write of these bytes.
fn write_call(
    alloc: Global,
    port: Port,
    bytes: &[u8],
    answer: Answer<usize>,
) -> Result<Call, AllocError>
    ensures { IfOk result (λ call. heard_of call ≡ WasWritten port bytes.now answer) }
{
    let bytes = Vec::from_slice(alloc, bytes)?;
    Ok(Call::Write {
        port,
        bytes,
        answer,
    })
}

impl<W: Wire + Drop> Recorder<W> {
    /// Makes a recorder that passes the calls of its methods to this wire. The recorder has
    /// recorded no calls yet.
    pub fn new(alloc: Global, wire: W) -> Recorder<W>
        ensures { result ≡ record { wire = wire; trace = []; is_whole = true } }
    {
        Recorder {
            alloc,
            wire,
            calls: Vec::new(alloc),
            is_whole: true,
        }
    }

    /// Returns the wire to which the calls are passed.
    pub fn wire(&self) -> &W
        ensures { result.now ≡ self.now.wire }
    {
        &self.wire
    }

    /// Returns the calls that were recorded, the oldest first.
    pub fn calls(&self) -> &[Call]
        ensures { self.now.trace ≡ reverse (map heard_of result.now) }
    {
        &self.calls
    }

    /// Whether all calls were recorded.
    pub fn is_whole(&self) -> bool
        ensures { result ≡ self.now.is_whole }
    {
        self.is_whole
    }

    /// Records a call of a method, if there was memory for the call. Else the recorder isn't whole
    /// any more: it lacks a call.
    fn keep_if(&mut self, call: Result<Call, AllocError>)
        ensures { (heard : Heard) → IfOk call (λ kept. heard_of kept ≡ heard)
            → Keeps self.old heard self.new × (self.new.wire ≡ self.old.wire) }
    {
        match call {
            Ok(call) => self.keep(call),
            Err(_) => self.is_whole = false,
        }
    }

    /// Records a call.
    fn keep(&mut self, call: Call)
        ensures { Keeps self.old (heard_of call) self.new × (self.new.wire ≡ self.old.wire) }
    {
        match self.calls.push(call) {
            Ok(()) => {}
            Err(_) => self.is_whole = false,
        }
    }
}

impl<W: Wire + Drop> Wire for Recorder<W> {
    ghost use Rattle.sv_recording.specs.Recorded.{Passes};

    ghost hears = { λ before heard after. Passes W.hears before heard after };

    fn accept(&mut self, role: Role, conn: Option<u8>) -> Answer<()> {
        let answer = self.wire.accept(role, conn);
        self.keep(Call::Accept { role, conn, answer });
        answer
    }

    fn read(&mut self, conn: u8, buffer: &mut [u8]) -> Answer<usize> {
        let answer = self.wire.read(conn, buffer);
        self.keep_if(read_call(self.alloc, conn, answer, buffer));
        answer
    }

    fn probe(&mut self, conn: u8, drops: bool) -> Answer<()> {
        let answer = self.wire.probe(conn, drops);
        self.keep(Call::Probe {
            conn,
            drops,
            answer,
        });
        answer
    }

    fn write(&mut self, port: Port, bytes: &[u8]) -> Answer<usize> {
        let answer = self.wire.write(port, bytes);
        self.keep_if(write_call(self.alloc, port, bytes, answer));
        answer
    }

    fn dial(&mut self, conn: u8, dial: Dial) -> Answer<()> {
        let answer = self.wire.dial(conn, dial);
        self.keep(Call::Dial { conn, dial, answer });
        answer
    }

    fn dialed(&mut self, conn: u8) -> Answer<()> {
        let answer = self.wire.dialed(conn);
        self.keep(Call::Dialed { conn, answer });
        answer
    }

    fn close(&mut self, port: Port) {
        self.wire.close(port);
        self.keep(Call::Close { port });
    }
}
