//! Messages to the instrument, and its responses.

ghost use Rattle.std.specs.Prelude.{◌≡◌, ◌≤◌, ◌||◌, not, List, ◌∷◌, length, IsTrue};
ghost use Rattle.sv_errors.specs.declared.code.Code.TheVariants.{QueryUnterminated};
ghost use Rattle.sv_exchange.specs.Exchange.{Accepted, TextDropped, ResponseRead, has_ended, response, is_something};
ghost use Rattle.sv_exchange.specs.Contents.{is_open, shown_by};
ghost use Rattle.sv_exchange.specs.Limits.{max_message};
ghost use Rattle.sv_exchange.specs.ReadGiven.{IsReadOf};
ghost use Rattle.sv_layers.specs.Act.{Act, Exchanged, Reported, Purged, exchange_acts};
ghost use Rattle.sv_instrument.specs.Step.{is_answerable};
ghost use Rattle.sv_instrument.specs.Representation.{StandsFor, Ran};

use crate::instrument::Instrument;
use std::alloc::Allocator;
use sv_errors::Code;
use sv_exchange::{MAX_MESSAGE, Read};
use sv_header::Path;
use sv_layers::Change;

impl<A: Allocator> Instrument<A> {
    /// Whether a write is accepted now. After the end of a message, no write is accepted until the
    /// message is finished: its units are done, and its answers became the response.
    pub fn can_write(&self) -> bool
        ensures value { result ≡ is_open self.now.layers.exchange }
        ensures answer { (log : List Act) → StandsFor self.now log
            → result ≡ not (has_ended (exchange_acts log)) }
    {
        self.layers.exchange().open_for_write()
    }

    /// Accepts the bytes of a write, with END at the last byte or without END (VXI-11,
    /// device_write). The caller must know that a write is accepted now, and pass at most
    /// [`MAX_MESSAGE`] bytes. Returns how many requests for service were raised.
    pub fn write(&mut self, bytes: &[u8], ended: bool) -> u8
        requires open { IsTrue (is_open self.old.layers.exchange) }
        requires short { length bytes.now ≤ max_message }
        ensures { (log : List Act) → StandsFor self.old log
            → Ran self.new result log (Exchanged (Accepted bytes.now ended) ∷ log) }
    {
        self.layers.accept(bytes, ended);
        self.take_requests()
    }

    /// Whether there is a response to read.
    pub fn readable(&self) -> bool
        ensures value { result ≡ is_something (shown_by self.now.layers.exchange) }
        ensures answer { (log : List Act) → StandsFor self.now log
            → result ≡ is_something (response (exchange_acts log)) }
    {
        self.layers.exchange().readable()
    }

    /// Whether a read can be answered now. It can if there is a response, or if no response will
    /// come: then the read fails at once.
    pub fn can_read(&self) -> bool
        ensures value { result ≡ (is_something (shown_by self.now.layers.exchange)
            || is_open self.now.layers.exchange) }
        ensures answer { (log : List Act) → StandsFor self.now log → result ≡ is_answerable log }
    {
        self.layers.exchange().readable() || self.can_write()
    }

    /// Returns the next bytes of the response: at most `most`, and none after the first termination
    /// character `term` (VXI-11, device_read). Returns no bytes if there is no response.
    pub fn peek(&self, most: u32, term: Option<u8>) -> Read<'_>
        ensures value { IsReadOf result (shown_by self.now.layers.exchange) most term }
        ensures answer { (log : List Act) → StandsFor self.now log
            → IsReadOf result (response (exchange_acts log)) most term }
    {
        self.layers.exchange().peek(most, term)
    }

    /// Drops the first `count` bytes of the response, after a client has read them (VXI-11,
    /// device_read). Returns how many requests for service were raised.
    pub fn take(&mut self, count: usize) -> u8
        requires { count ≤ length (shown_by self.old.layers.exchange) }
        ensures { (log : List Act) → StandsFor self.old log
            → Ran self.new result log (Exchanged (ResponseRead count) ∷ log) }
    {
        self.layers.take(count);
        self.take_requests()
    }

    /// Handles a read to which no response will come: drops the text of the unfinished message, and
    /// reports -420 (IEEE 488.2, 6.3.2.2). After the end of a message, this function must not be
    /// called until the message is finished. Returns how many requests for service were raised.
    pub fn unterminated(&mut self) -> u8
        requires { IsTrue (is_open self.old.layers.exchange) }
        ensures { (log : List Act) → StandsFor self.old log → Ran self.new result log
            (Reported QueryUnterminated ∷ Exchanged TextDropped ∷ log) }
    {
        self.held = None;
        self.path = Path::root();
        self.layers.drop_unfinished();
        self.layers.apply(Change::Report(Code::QueryUnterminated));
        self.take_requests()
    }

    /// Performs a device clear: drops program text, the held unit and the response, and cancels a
    /// pending `*OPC` (VXI-11, device_clear; IEEE 488.2, 5.8). Returns how many requests for
    /// service were raised.
    pub fn clear(&mut self) -> u8
        ensures { (log : List Act) → StandsFor self.old log
            → Ran self.new result log (Purged ∷ log) }
    {
        self.held = None;
        self.path = Path::root();
        self.layers.purge();
        self.take_requests()
    }
}
