//! Changes of program text and of the response, each followed by the update of registers and status
//! byte.

ghost use Rattle.std.specs.Prelude.{◌≡◌, ◌+◌, ◌*◌, ◌<◌, ◌≤◌, List, ◌∷◌, drop, length, IsTrue, if◌then◌else◌};
ghost use Rattle.sv_exchange.specs.Exchange.{Accepted, TextDropped, Overran, UnitDone, Answered, AnswersDropped, Finished, Interrupted, ResponseRead, OverrunDue, InterruptDue, FinishDue, answers, fits_response};
ghost use Rattle.sv_exchange.specs.Contents.{empty, is_open, shown_by, next_of, IsUnitDue, may_respond, exchange_measure};
ghost use Rattle.sv_exchange.specs.Limits.{max_message};
ghost use Rattle.sv_layers.specs.Act.{Act, Exchanged, Purged, exchange_acts};
ghost use Rattle.sv_layers.specs.Inside.Representation.{StandsFor, IsApplied};

use crate::layers::Layers;
use std::alloc::Allocator;

impl<A: Allocator> Layers<A> {
    /// Accepts the bytes of a write, with END at the last byte or without END. Message exchange
    /// must be open for a write, which may have at most [`MAX_MESSAGE`](sv_exchange::MAX_MESSAGE)
    /// bytes.
    pub fn accept(&mut self, bytes: &[u8], ended: bool)
        requires open { IsTrue (is_open self.old.exchange) }
        requires short { length bytes.now ≤ max_message }
        ensures applied { (log : List Act) → StandsFor self.old log
            → IsApplied self.old.requests self.new (Exchanged (Accepted bytes.now ended) ∷ log) }
        ensures bounded { exchange_measure self.new.exchange
            ≤ exchange_measure self.old.exchange + 3 * length bytes.now + 4 }
    {
        self.exchange.accept(bytes, ended);
        self.update_status();
    }

    /// Marks the unit that is due as done: it has been executed.
    pub fn done(&mut self)
        requires { IsUnitDue (next_of self.old.exchange) }
        ensures applied { (log : List Act) → StandsFor self.old log
            → IsApplied self.old.requests self.new (Exchanged UnitDone ∷ log) }
        ensures measure { exchange_measure self.new.exchange < exchange_measure self.old.exchange }
        ensures stays_open { is_open self.new.exchange ≡ is_open self.old.exchange }
        ensures may_respond { IsTrue (may_respond self.new.exchange) }
    {
        self.exchange.done();
        self.update_status();
    }

    /// Records that the error for a message that is too long was reported.
    pub fn overran(&mut self)
        requires { next_of self.old.exchange ≡ OverrunDue }
        ensures applied { (log : List Act) → StandsFor self.old log
            → IsApplied self.old.requests self.new (Exchanged Overran ∷ log) }
        ensures measure { exchange_measure self.new.exchange < exchange_measure self.old.exchange }
        ensures stays_open { is_open self.new.exchange ≡ is_open self.old.exchange }
    {
        self.exchange.overran();
        self.update_status();
    }

    /// Drops the response: a new message interrupts it.
    pub fn interrupt(&mut self)
        requires { next_of self.old.exchange ≡ InterruptDue }
        ensures applied { (log : List Act) → StandsFor self.old log
            → IsApplied self.old.requests self.new (Exchanged Interrupted ∷ log) }
        ensures measure { exchange_measure self.new.exchange < exchange_measure self.old.exchange }
        ensures stays_open { is_open self.new.exchange ≡ is_open self.old.exchange }
        ensures next { IsUnitDue (next_of self.new.exchange) }
    {
        self.exchange.drop_response();
        self.update_status();
    }

    /// Finishes the message that has ended: its answers become the response.
    pub fn finish(&mut self)
        requires { next_of self.old.exchange ≡ FinishDue }
        ensures applied { (log : List Act) → StandsFor self.old log
            → IsApplied self.old.requests self.new (Exchanged Finished ∷ log) }
        ensures measure { exchange_measure self.new.exchange < exchange_measure self.old.exchange }
    {
        self.exchange.finish();
        self.update_status();
    }

    /// Appends an answer to the answers of the message's earlier units, if there is room for it;
    /// else drops all answers of the message. Returns whether there was room.
    pub fn respond(&mut self, answer: &[u8]) -> bool
        requires { IsTrue (may_respond self.old.exchange) }
        ensures fits { (log : List Act) → StandsFor self.old log
            → result ≡ fits_response (answers (exchange_acts log)) answer.now }
        ensures applied { (log : List Act) → StandsFor self.old log
            → IsApplied self.old.requests self.new (Exchanged
            (if result then Answered answer.now else AnswersDropped) ∷ log) }
        ensures measure { exchange_measure self.new.exchange ≤ exchange_measure self.old.exchange }
        ensures stays_open { is_open self.new.exchange ≡ is_open self.old.exchange }
    {
        let fits = self.exchange.respond(answer);
        self.update_status();
        fits
    }

    /// Drops the first `count` bytes of the response: a client has read them.
    pub fn take(&mut self, count: usize)
        requires { count ≤ length (shown_by self.old.exchange) }
        ensures applied { (log : List Act) → StandsFor self.old log
            → IsApplied self.old.requests self.new (Exchanged (ResponseRead count) ∷ log) }
        ensures value { self.new.exchange ≡ record self.old.exchange {
          output = drop count self.old.exchange.output;
        } }
    {
        self.exchange.take(count);
        self.update_status();
    }

    /// Drops the text of the current message. The message mustn't have ended.
    pub fn drop_unfinished(&mut self)
        requires { IsTrue (is_open self.old.exchange) }
        ensures applied { (log : List Act) → StandsFor self.old log
            → IsApplied self.old.requests self.new (Exchanged TextDropped ∷ log) }
        ensures stays_open { IsTrue (is_open self.new.exchange) }
    {
        self.exchange.drop_unfinished();
        self.update_status();
    }

    /// Performs a device clear: drops program text, answers and response, and cancels a pending
    /// `*OPC`.
    pub fn purge(&mut self)
        ensures applied { (log : List Act) → StandsFor self.old log
            → IsApplied self.old.requests self.new (Purged ∷ log) }
        ensures value { self.new.exchange ≡ empty }
    {
        self.waits = false;
        self.exchange.clear();
        self.update_status();
    }
}
