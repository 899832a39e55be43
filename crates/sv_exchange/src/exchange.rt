//! Message exchange: program messages come in, and responses go out.

ghost use Rattle.std.specs.Prelude.{◌≡◌, ℕ, ◌+◌, ◌*◌, ◌<◌, ◌≤◌, ◌==◌, Bool, true, false, not, ◌||◌, List, [], ◌∷◌, Option, Some, None, option_map, length, take, drop, nat_lt, vec_capacity, IsTrue, IfOk, if◌then◌else◌};
ghost use Rattle.sv_lexer.specs.Unit.{IsLexed};
ghost use Rattle.sv_exchange.specs.Exchange.{ExchangeAct, Accepted, TextDropped, Overran, UnitDone, UnitDue, Answered, AnswersDropped, Finished, Interrupted, ResponseRead, OverrunDue, InterruptDue, FinishDue, due, has_ended, is_long, message, next_unit, answers, joined_answers, response, fits_response, is_something};
ghost use Rattle.sv_exchange.specs.Limits.{max_message, max_response};
ghost use Rattle.sv_exchange.specs.ReadGiven.{IsReadOf};
ghost use Rattle.sv_exchange.specs.Place.{IsPlaceOf};
ghost use Rattle.sv_exchange.specs.Contents.{Contents, StandsFor, empty, is_open, shown_by, next_of, IsUnitDue, may_respond, exchange_measure, plain_next};
ghost use Rattle.sv_exchange.specs.Fields.{after_accept, after_finish, after_answer, with_answer};

use crate::ahead::Ahead;
use crate::limits::{MAX_MESSAGE, MAX_READ, MAX_RESPONSE, MAX_TEXT};
use crate::message::first_message;
use crate::read::{Read, ends_at};
use std::alloc::{AllocError, Allocator, Global};
use std::marker::Model;
use sv_bytes::{append, drop_front};
use sv_errors::Code;
use sv_lexer::Unit;
use sv_text::place_of;

/// The step that is due.
#[derive(Clone, Copy)]
pub enum Next<'a> {
    /// No step is due until more text comes.
    Nothing,
    /// The current message is too long, and this is to be reported.
    Overrun,
    /// The response is to be dropped although it wasn't read completely, because a unit of a new
    /// message is to be executed next.
    Interrupt,
    /// This unit is to be executed.
    Unit(&'a [u8]),
    /// The current message is to be finished.
    Finish,
}

/// The exchange of messages with an instrument (IEEE 488.2, 6.1 and 6.3): program text, cut into
/// messages and units, and the response. At most [`MAX_TEXT`] bytes of text are stored, and
/// [`MAX_RESPONSE`] bytes of the response.
#[derive(Drop)]
pub struct Exchange<A: Allocator = Global> {
    /// Program text. The units before `cursor` were executed.
    text: Vec<u8, A>,
    cursor: usize,
    /// Where the current message ends.
    end: usize,
    /// How many bytes of the current message come before `cursor`. Their units were executed.
    executed: usize,
    /// What was read so far of the unit that comes next after `cursor`.
    ahead: Ahead,
    /// Where the next message begins.
    next_start: usize,
    /// Whether the current message has ended.
    ended: bool,
    /// Whether END came with the last byte of the text after the current message.
    end_pending: bool,
    /// Whether the current message is too long. The bytes of a message that is too long are
    /// dropped.
    overlong: bool,
    /// Whether the current message was reported as too long.
    overrun_reported: bool,
    /// Whether the answers of the current message were dropped.
    answers_dropped: bool,
    /// Whether `response` holds answers of the current message, which can't be read yet.
    answering: bool,
    response: Vec<u8, A>,
    /// How many bytes of the response were read.
    read: usize,
}

impl<A: Allocator> Model for Exchange<A> {
    ghost use Rattle.sv_exchange.specs.Contents.{Contents};

    ghost Value = { Contents };

    ghost use Rattle.std.specs.Prelude.{◌+◌, ◌≤◌, vec_capacity, slice_range};
    ghost use Rattle.sv_exchange.specs.Fields.{contents_of, IsValid};
    ghost use Rattle.sv_exchange.specs.Ahead.{IsLooked};
    ghost use Rattle.sv_exchange.specs.Limits.{max_message};

    ghost view = { λ a. contents_of a.text.items a.cursor a.end a.next_start a.ended a.end_pending
        a.overlong a.overrun_reported a.answers_dropped a.answering a.response.items a.read
        a.executed };

    ghost invariant = { λ a. IsValid a.text.items a.cursor a.end a.next_start a.ended
        (vec_capacity a.text) a.response.items a.read a.answering (vec_capacity a.response)
        × IsLooked a.ahead (slice_range a.text.items a.cursor a.end)
        × (a.executed + a.end ≤ a.cursor + max_message) };
}

impl<A: Allocator + Copy> Exchange<A> {
    /// An exchange without bytes of a message, and without a response. All memory that the exchange
    /// ever uses is allocated here.
    ///
    /// # Errors
    /// If memory is refused.
    pub fn new(alloc: A) -> Result<Exchange<A>, AllocError>
        ensures { IfOk result (λ exchange. (exchange ≡ empty) × StandsFor exchange []) }
    {
        Ok(Exchange {
            text: Vec::with_capacity(alloc, MAX_TEXT)?,
            cursor: 0,
            executed: 0,
            end: 0,
            ahead: Ahead::of(&[]),
            next_start: 0,
            ended: false,
            end_pending: false,
            overlong: false,
            overrun_reported: false,
            answers_dropped: false,
            answering: false,
            response: Vec::with_capacity(alloc, MAX_RESPONSE)?,
            read: 0,
        })
    }
}

impl<A: Allocator> Exchange<A> {
    /// Whether a write is accepted. From the end of a message until this message is finished, no
    /// write is accepted.
    pub fn open_for_write(&self) -> bool
        ensures value { result ≡ is_open self.now }
        ensures answer { (acts : List ExchangeAct) → StandsFor self.now acts
            → result ≡ not (has_ended acts) }
    {
        !self.ended
    }

    /// Accepts the bytes of a write. `ended` says whether END comes with the last byte (VXI-11,
    /// device_write). A message ends at END or at a new line (IEEE 488.2, 7.5). If a message gets
    /// longer than [`MAX_MESSAGE`] bytes, its stored bytes are dropped, and its later bytes are
    /// dropped when they come. The exchange must be open for a write, and a write may have at most
    /// [`MAX_MESSAGE`] bytes.
    pub fn accept(&mut self, bytes: &[u8], ended: bool)
        requires open { IsTrue (is_open self.old) }
        requires short { length bytes.now ≤ max_message }
        ensures value { self.new ≡ after_accept self.old bytes.now ended }
        ensures bounded { exchange_measure self.new ≤ exchange_measure self.old
            + 3 * length bytes.now + 4 }
        ensures stands { (acts : List ExchangeAct) → StandsFor self.old acts
            → StandsFor self.new (Accepted bytes.now ended ∷ acts) }
    {
        drop_front(&mut self.text, self.cursor);
        let before = self.text.len();
        append(&mut self.text, bytes);
        let cut = first_message(bytes, ended);
        self.end = before + cut.size;
        self.next_start = before + cut.next_start;
        self.ended = cut.ended;
        self.end_pending = cut.end_pending;
        self.overlong |= self.end > MAX_MESSAGE;
        self.executed = 0;
        if self.overlong {
            self.cursor = self.end;
            self.ahead = Ahead::of(&[]);
        } else {
            self.cursor = 0;
            self.ahead.look(&self.text[..self.end]);
        }
    }

    /// The step that is due, if any: to report that the current message is too long; to drop the
    /// response that this message interrupts; to execute a unit; or to finish this message. If the
    /// message is too long, or its answers were dropped, none of its units is due.
    pub fn next_unit(&self) -> Next<'_>
        ensures value { plain_next result ≡ next_of self.now }
        ensures answer { (acts : List ExchangeAct) → StandsFor self.now acts
            → plain_next result ≡ due acts }
    {
        if self.overlong && !self.overrun_reported {
            return Next::Overrun;
        }
        if !self.ended {
            return Next::Nothing;
        }
        if self.overlong || self.answers_dropped {
            return Next::Finish;
        }
        match self.ahead.unit(&self.text[self.cursor..self.end]) {
            Some((unit, _)) => {
                if self.readable() {
                    Next::Interrupt
                } else {
                    Next::Unit(unit)
                }
            }
            None => Next::Finish,
        }
    }

    /// The next unit of the current message; `None` if no unit remains, the message hasn't ended,
    /// the message is too long, or its answers were dropped.
    pub fn pending_unit(&self) -> Option<&[u8]>
        ensures { (acts : List ExchangeAct) → StandsFor self.now acts
            → option_map (λ unit. unit.now) result ≡ next_unit acts }
    {
        if !self.ended || self.overlong || self.answers_dropped {
            return None;
        }
        match self.ahead.unit(&self.text[self.cursor..self.end]) {
            Some((unit, _)) => Some(unit),
            None => None,
        }
    }

    /// How many bytes of the current message come before its next unit. If there is no next unit,
    /// the number has no meaning.
    pub fn unit_place(&self) -> u16
        ensures { (acts : List ExchangeAct) (unit : List ℕ) → StandsFor self.now acts
            → next_unit acts ≡ Some unit → IsPlaceOf result unit acts }
    {
        (self.executed + self.ahead.start) as u16
    }

    /// How many bytes of a message came that hasn't ended yet; `None` if the current message has
    /// ended, or is too long.
    pub fn unended(&self) -> Option<u32>
        ensures { (acts : List ExchangeAct) → StandsFor self.now acts
            → result ≡ (if has_ended acts || is_long acts then None
            else Some (length (message acts))) }
    {
        if self.ended || self.overlong {
            return None;
        }
        Some((self.end - self.cursor) as u32)
    }

    /// How many bytes the answers of the current message have, joined.
    pub fn gathered(&self) -> u32
        ensures { (acts : List ExchangeAct) → StandsFor self.now acts
            → result ≡ length (joined_answers (answers acts)) }
    {
        if self.answering {
            self.response.len() as u32
        } else {
            0
        }
    }

    /// How many bytes of the response can be read.
    pub fn left(&self) -> u32
        ensures { (acts : List ExchangeAct) → StandsFor self.now acts
            → result ≡ length (response acts) }
    {
        if self.answering {
            return 0;
        }
        (self.response.len() - self.read) as u32
    }

    /// The unit that is due, with its header and parameters. The unit was read while its bytes
    /// came.
    ///
    /// # Errors
    /// The errors that [`unit`](sv_lexer::unit) returns for the bytes of this unit.
    pub fn lexed(&self) -> Result<Unit<'_>, Code>
        requires { IsUnitDue (next_of self.now) }
        ensures { (unit : List ℕ) → next_of self.now ≡ UnitDue unit → IsLexed result unit }
    {
        let message = &self.text[self.cursor..self.end];
        let ahead = &self.ahead;
        ahead.partial.finish(&message[ahead.start..ahead.end])
    }

    /// Removes the unit that is due, which was executed, from the current message.
    pub fn done(&mut self)
        requires { IsUnitDue (next_of self.old) }
        ensures value { self.new ≡ record self.old {
          rest = self.new.rest;
          place = self.new.place;
        } }
        ensures measure { exchange_measure self.new < exchange_measure self.old }
        ensures stays_open { is_open self.new ≡ is_open self.old }
        ensures may_respond { IsTrue (may_respond self.new) }
        ensures stands { (acts : List ExchangeAct) → StandsFor self.old acts
            → StandsFor self.new (UnitDone ∷ acts) }
    {
        if let Some((_, count)) = self.ahead.unit(&self.text[self.cursor..self.end]) {
            self.cursor += count;
            self.executed += count;
            self.ahead = Ahead::of(&self.text[self.cursor..self.end]);
        }
    }

    /// Records that the current message was reported as too long. None of this message's units is
    /// executed.
    pub fn overran(&mut self)
        requires { next_of self.old ≡ OverrunDue }
        ensures value { self.new ≡ record self.old { overrun_reported = true } }
        ensures measure { exchange_measure self.new < exchange_measure self.old }
        ensures stays_open { is_open self.new ≡ is_open self.old }
        ensures stands { (acts : List ExchangeAct) → StandsFor self.old acts
            → StandsFor self.new (Overran ∷ acts) }
    {
        self.overrun_reported = true;
    }

    /// Drops the response, because a new message interrupts it (IEEE 488.2, 6.3.2.3).
    pub fn drop_response(&mut self)
        requires { next_of self.old ≡ InterruptDue }
        ensures value { self.new ≡ record self.old { output = [] } }
        ensures measure { exchange_measure self.new < exchange_measure self.old }
        ensures stays_open { is_open self.new ≡ is_open self.old }
        ensures next { IsUnitDue (next_of self.new) }
        ensures stands { (acts : List ExchangeAct) → StandsFor self.old acts
            → StandsFor self.new (Interrupted ∷ acts) }
    {
        self.read = self.response.len();
    }

    /// Finishes the message that has ended. If the message has answers, these and a new line become
    /// the response (IEEE 488.2, 8.5).
    pub fn finish(&mut self)
        requires { next_of self.old ≡ FinishDue }
        ensures value { self.new ≡ after_finish self.old }
        ensures measure { exchange_measure self.new < exchange_measure self.old }
        ensures stands { (acts : List ExchangeAct) → StandsFor self.old acts
            → StandsFor self.new (Finished ∷ acts) }
    {
        let has_answers = self.answering;
        let cut = first_message(&self.text[self.next_start..], self.end_pending);
        self.cursor = self.next_start;
        self.executed = 0;
        self.end = self.next_start + cut.size;
        self.ahead = Ahead::of(&self.text[self.cursor..self.end]);
        self.next_start += cut.next_start;
        self.ended = cut.ended;
        self.end_pending = cut.end_pending;
        self.overlong = false;
        self.overrun_reported = false;
        self.answers_dropped = false;
        self.answering = false;
        if has_answers {
            self.response.push_reserved(b'\n');
        }
    }

    /// Adds an answer after the answers of the message's earlier units, separated by a semicolon
    /// (IEEE 488.2, 8.4.1). The current message must have ended, its answers must not have been
    /// dropped, and there must be no response to read. Returns whether the answer fits. It doesn't
    /// fit if the response would exceed [`MAX_RESPONSE`] bytes: then all answers of the message are
    /// dropped, and no further unit of the message is executed.
    pub fn respond(&mut self, answer: &[u8]) -> bool
        requires { IsTrue (may_respond self.old) }
        ensures value { self.new ≡ after_answer self.old answer.now result }
        ensures fits { result ≡ nat_lt
            (length (with_answer self.old.answering self.old.output answer.now)) max_response }
        ensures measure { exchange_measure self.new ≤ exchange_measure self.old }
        ensures stays_open { is_open self.new ≡ is_open self.old }
        ensures stands { (acts : List ExchangeAct) → StandsFor self.old acts
            → (result ≡ fits_response (answers acts) answer.now)
            × StandsFor self.new ((if result then Answered answer.now else AnswersDropped) ∷ acts) }
    {
        if self.answering {
            self.response.push_reserved(b';');
        } else {
            self.response.clear();
        }
        self.read = 0;
        if answer.len() >= MAX_RESPONSE - self.response.len() {
            self.response.clear();
            self.answering = false;
            self.answers_dropped = true;
            return false;
        }
        append(&mut self.response, answer);
        self.answering = true;
        true
    }

    /// Whether there is a response to read. The answers of a message become a response when the
    /// message is finished.
    pub fn readable(&self) -> bool
        ensures value { result ≡ is_something (shown_by self.now) }
        ensures answer { (acts : List ExchangeAct) → StandsFor self.now acts
            → result ≡ is_something (response acts) }
    {
        !self.shown().is_empty()
    }

    /// The next bytes of the response: at most `most` bytes, and no further than the first
    /// termination character (VXI-11, device_read). Without a response there are no bytes.
    pub fn peek(&self, most: u32, term: Option<u8>) -> Read<'_>
        ensures value { IsReadOf result (shown_by self.now) most term }
        ensures answer { (acts : List ExchangeAct) → StandsFor self.now acts
            → IsReadOf result (response acts) most term }
    {
        let response = self.shown();
        let limit = (most as usize).min(MAX_READ.min(response.len()));
        let count = match term {
            Some(last) => limit.min(place_of(&response[..limit], last) + 1),
            None => limit,
        };
        Read {
            request_count: count == most as usize,
            character: ends_at(response, count, term),
            end: count == response.len(),
            bytes: &response[..count],
        }
    }

    /// Drops the first `count` bytes of the response, because they were read (VXI-11, device_read).
    pub fn take(&mut self, count: usize)
        requires { count ≤ length (shown_by self.old) }
        ensures value { self.new ≡ record self.old { output = drop count self.old.output } }
        ensures stays_open { is_open self.new ≡ is_open self.old }
        ensures stands { (acts : List ExchangeAct) → StandsFor self.old acts
            → StandsFor self.new (ResponseRead count ∷ acts) }
    {
        self.read += count;
    }

    /// Drops the text of the current message. The message must not have ended yet (IEEE 488.2,
    /// 6.3.2.2).
    pub fn drop_unfinished(&mut self)
        requires { IsTrue (is_open self.old) }
        ensures value { self.new ≡ record empty {
          answering = self.old.answering;
          output =
              self.old.output;
        } }
        ensures stays_open { IsTrue (is_open self.new) }
        ensures stands { (acts : List ExchangeAct) → StandsFor self.old acts
            → StandsFor self.new (TextDropped ∷ acts) }
    {
        self.drop_text();
    }

    /// Device clear: drops program text, answers and response (IEEE 488.2, 5.8).
    pub fn clear(&mut self)
        ensures value { self.new ≡ empty }
        ensures stands { (acts : List ExchangeAct) → StandsFor self.old acts
            → StandsFor self.new (Interrupted ∷ TextDropped ∷ acts) }
    {
        self.drop_text();
        self.answering = false;
        self.response.clear();
        self.read = 0;
    }

    /// Drops all program text, and all that is stored about the messages in the text.
    fn drop_text(&mut self)
        ensures { self.new ≡ record empty {
          answering = self.old.answering;
          output =
              self.old.output;
        } }
    {
        self.text.clear();
        self.cursor = 0;
        self.executed = 0;
        self.end = 0;
        self.ahead = Ahead::of(&[]);
        self.next_start = 0;
        self.ended = false;
        self.end_pending = false;
        self.overlong = false;
        self.overrun_reported = false;
        self.answers_dropped = false;
    }

    /// The bytes of the response that can be read now.
    fn shown(&self) -> &[u8]
        ensures { result.now ≡ shown_by self.now }
    {
        if self.answering {
            &[]
        } else {
            &self.response[self.read..]
        }
    }
}
