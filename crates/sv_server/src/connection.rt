//! A connection: the bytes that came, the bytes that wait to be sent, what the connection's next
//! record asks for, and how replies are written. This module doesn't use the device, and a
//! connection doesn't use other connections.

ghost use Rattle.std.specs.Prelude.{◌≡◌, ◌≢◌, ◌+◌, ◌≤◌, ◌||◌, not, ◌&&◌, ℕ, List, [], ◌∷◌, length, IfOk, IsSome, Some, None, true, false, is_some, nat_lt, option_map, if◌then◌else◌};
ghost use Rattle.sv_rpc.specs.RecordBuf.{StandsFor, room_of, no_records};
ghost use Rattle.sv_history.specs.Act.{ConnAct, Opened, Piece, CallTaken, Faulted, Replied, BytesTaken, PortClosed};
ghost use Rattle.sv_history.specs.Connection.{is_open, next_call, is_idle, is_overlong, is_faulted, room, free, waiting, pending_call, is_busy};
ghost use Rattle.sv_history.specs.Request.{core_call_in};
ghost use Rattle.sv_history.specs.Limits.{longest_reply, max_output};
ghost use Rattle.sv_server.specs.Connection.Representation.{IsConnection};
ghost use Rattle.sv_server.specs.Connection.Inside.NextCall.{kept_next};
ghost use Rattle.sv_server.specs.Connection.Inside.Requests.{plain_core_call};
ghost use Rattle.sv_server.specs.Connection.Inside.Replies.{answer_bytes, IsShort};

pub mod reply;
pub mod request;

use crate::connection::reply::{LONGEST_REPLY, put_reply};
use crate::connection::request::{CoreCall, core_call};
use crate::outcome::Answer;
use std::alloc::{AllocError, Allocator};
use std::marker::Model;
use sv_bytes::drop_front;
use sv_history::Role;
use sv_rpc::{RecordBuf, RpcFault};

/// The most outgoing bytes that may wait for the peer to take them.
const MAX_OUTPUT: usize = 16384;

/// A connection, open or not: its role, the bytes that came, and the bytes that wait to be sent.
/// Until a call that was taken is answered, the connection keeps the bytes of the call, and the
/// output has room for the longest reply.
#[derive(Drop)]
pub struct Connection<A: Allocator> {
    role: Option<Role>,
    input: RecordBuf<A>,
    output: Vec<u8, A>,
    /// Whether a record was taken that isn't a call.
    faulted: bool,
    /// Whether the first record of the input is a call that was taken already.
    busy: bool,
}

impl<A: Allocator> Model for Connection<A> {
    ghost use Rattle.sv_server.specs.Connection.Representation.{Connection};

    ghost Value = { Connection };

    ghost use Rattle.std.specs.Prelude.{◌≡◌, ◌≢◌, ◌+◌, ◌≤◌, true, None, [], length, vec_capacity};
    ghost use Rattle.sv_history.specs.Limits.{longest_reply, max_output};

    ghost view = { λ a. record {
      role = a.role;
      input = a.input;
      output = a.output.items;
      faulted = a.faulted;
      busy = a.busy;
    } };

    ghost invariant = { λ a. (length a.output.items ≤ max_output)
        × (max_output ≤ vec_capacity a.output)
        × (a.busy ≡ true → (a.role ≢ None) × (a.input.records ≢ [])
        × (length a.output.items + longest_reply ≤ max_output)) };
}

impl<A: Allocator + Copy> Connection<A> {
    /// Makes a connection that isn't open. Allocates all the memory that the connection ever uses.
    pub fn new(alloc: A) -> Result<Connection<A>, AllocError>
        ensures { IfOk result (λ connection. IsConnection connection []) }
    {
        Ok(Connection {
            role: None,
            input: RecordBuf::new(alloc)?,
            output: Vec::with_capacity(alloc, MAX_OUTPUT)?,
            faulted: false,
            busy: false,
        })
    }
}

impl<A: Allocator> Connection<A> {
    /// The role of the connection; `None` if the connection isn't open.
    pub fn role(&self) -> Option<Role>
        ensures { result ≡ self.now.role }
    {
        self.role
    }

    /// Whether the connection is open.
    pub fn is_open(&self) -> bool
        ensures value { result ≡ is_some self.now.role }
        ensures shut { result ≡ false → self.now.busy ≡ false }
    {
        self.role.is_some()
    }

    /// The bytes that wait to be sent; none if the connection isn't open.
    pub fn waiting(&self) -> &[u8]
        ensures within { length result.now ≤ length self.now.output }
        ensures bounded { length result.now ≤ max_output }
        ensures answer { (acts : List ConnAct) → IsConnection self.now acts
            → result.now ≡ waiting acts }
    {
        match self.role {
            Some(_) => &self.output,
            None => &[],
        }
    }

    /// Opens the connection. No bytes have come, and none wait to be sent.
    pub fn open(&mut self, role: Role)
        ensures { (acts : List ConnAct) → IsConnection self.old acts
            → IsConnection self.new (Opened role ∷ acts) }
    {
        self.empty();
        self.role = Some(role);
    }

    /// Closes the connection, and drops the bytes that came and the bytes that wait to be sent.
    pub fn close(&mut self)
        ensures { (acts : List ConnAct) → IsConnection self.old acts
            → IsConnection self.new (PortClosed ∷ acts) }
    {
        self.empty();
        self.role = None;
    }

    /// Drops the bytes that came, and the bytes that wait to be sent.
    fn empty(&mut self)
        ensures value { self.new ≡ record self.old {
          input = no_records;
          output = [];
          faulted = false;
          busy = false;
        } }
        ensures stands { StandsFor self.new.input [] 0 }
    {
        self.input.clear();
        self.output.clear();
        self.faulted = false;
        self.busy = false;
    }

    /// How many more incoming bytes the connection has room for; 0 if the connection isn't open.
    pub fn room(&self) -> usize
        ensures bounded { result ≤ room_of self.now.input }
        ensures answer { (acts : List ConnAct) → IsConnection self.now acts → result ≡ room acts }
    {
        match self.role {
            Some(_) => self.input.room(),
            None => 0,
        }
    }

    /// Appends `piece`, which came from the peer, to the input.
    pub fn push(&mut self, piece: &[u8])
        requires { length piece.now ≤ room_of self.old.input }
        ensures { (acts : List ConnAct) → IsConnection self.old acts
            → IsConnection self.new (Piece piece.now ∷ acts) }
    {
        self.input.push(piece);
    }

    /// Drops the first `count` of the bytes that wait to be sent, because the peer took them.
    pub fn took(&mut self, count: usize)
        requires { count ≤ length self.old.output }
        ensures { (acts : List ConnAct) → IsConnection self.old acts
            → IsConnection self.new (BytesTaken count ∷ acts) }
    {
        drop_front(&mut self.output, count);
    }

    /// Whether the connection is at fault: a record was taken that isn't a call; or a record came
    /// that is too long, and all records before that record are finished.
    pub fn is_faulted(&self) -> bool
        ensures { (acts : List ConnAct) → IsConnection self.now acts → result ≡ is_faulted acts }
    {
        match self.input.next() {
            Ok(_) => self.faulted,
            Err(RpcFault::RecordTooLong) => true,
        }
    }

    /// Whether a record that is too long came. If so, the connection stores no more bytes.
    pub fn is_overlong(&self) -> bool
        ensures { (acts : List ConnAct) → IsConnection self.now acts → result ≡ is_overlong acts }
    {
        self.input.is_overlong()
    }

    /// The record of the call to take next; `None` if there is no call to take.
    pub fn next_call(&self) -> Option<&[u8]>
        ensures value { option_map (λ call. call.now) result ≡ kept_next self.now }
        ensures answer { (acts : List ConnAct) → IsConnection self.now acts
            → option_map (λ call. call.now) result ≡ next_call acts }
    {
        self.first_call()
    }

    /// Whether the connection has no call to take.
    pub fn is_idle(&self) -> bool
        ensures { (acts : List ConnAct) → IsConnection self.now acts → result ≡ is_idle acts }
    {
        self.next_call().is_none()
    }

    /// The first complete record of the input. `None` if there is no complete record, if the first
    /// one was taken already, or if the connection took a record that isn't a call.
    fn first_call(&self) -> Option<&[u8]>
        ensures { option_map (λ call. call.now) result ≡ kept_next self.now }
    {
        if self.faulted || self.busy {
            return None;
        }
        match self.input.next() {
            Ok(found) => found,
            Err(_) => None,
        }
    }

    /// The record of the call that was taken and isn't answered yet; `None` if there is no such
    /// call.
    fn taken(&self) -> Option<&[u8]>
        ensures { (acts : List ConnAct) → IsConnection self.now acts
            → option_map (λ call. call.now) result ≡ pending_call acts }
    {
        if !self.busy {
            return None;
        }
        match self.input.next() {
            Ok(found) => found,
            Err(_) => None,
        }
    }

    /// The call that was taken and isn't answered yet, if it is a call of the core channel; else
    /// `None`. The call's record is decoded again, with the same result as when it was taken.
    pub fn taken_call(&self) -> Option<CoreCall<'_>>
        ensures { (acts : List ConnAct) → IsConnection self.now acts
            → option_map plain_core_call result ≡ core_call_in (pending_call acts) }
    {
        core_call(self.taken()?)
    }

    /// Whether the output has room for the longest reply.
    pub fn has_reply_room(&self) -> bool
        ensures value { result ≡ not (nat_lt max_output (length self.now.output + longest_reply)) }
        ensures answer { (acts : List ConnAct) → IsConnection self.now acts
            → result ≡ not (nat_lt (free acts) longest_reply) }
    {
        self.output.len() + LONGEST_REPLY <= MAX_OUTPUT
    }

    /// Takes the next call, which stays in the input until it is answered.
    pub fn take_call(&mut self)
        requires next { IsSome (kept_next self.old) }
        requires room { length self.old.output + longest_reply ≤ max_output }
        requires open { self.old.role ≢ None }
        ensures { (acts : List ConnAct) (call : List ℕ) → IsConnection self.old acts
            → next_call acts ≡ Some call → IsConnection self.new (CallTaken call ∷ acts) }
    {
        self.busy = true;
    }

    /// Answers the call that was taken, if there is one.
    pub fn answer(&mut self, xid: u32, answer: &Answer<'_>)
        requires { IsShort answer.now }
        ensures { (acts : List ConnAct) → IsConnection self.old acts → is_busy acts ≡ true
            → IsConnection self.new (Replied (answer_bytes xid answer.now) ∷ acts) }
    {
        if !self.busy {
            return;
        }
        put_reply(&mut self.output, xid, answer);
        self.input.drop_first();
        self.busy = false;
    }

    /// Drops the record that was taken, if there is one. The record isn't a call, so the connection
    /// is at fault from now on.
    pub fn fault(&mut self)
        ensures { (acts : List ConnAct) → IsConnection self.old acts → is_busy acts ≡ true
            → IsConnection self.new (Faulted ∷ acts) }
    {
        if !self.busy {
            return;
        }
        self.input.drop_first();
        self.busy = false;
        self.faulted = true;
    }
}
