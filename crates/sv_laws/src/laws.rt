//! The laws of the specification. Each is the contract of a function that does nothing.

ghost use Rattle.sv_laws.specs.Taking.{Taking, NoneRefused};
ghost use Rattle.sv_laws.specs.Laws.{OneLog, TimeOnlyCounts, NoneLate, NothingLost, EachAnswered, RepliesMatch, TurnAnswered};
ghost use Rattle.sv_laws.specs.Isolation.{Isolation};
ghost use Rattle.sv_laws.specs.Cuts.{RecordsCut, WritesCut};
ghost use Rattle.sv_laws.specs.Conformance.{PollEndsRequest, StatusByteLeaves, ClearClears, ResetLeaves, StandardReadOnce, PresetLeaves, ErrorsInOrder, ClearRests};
ghost use Rattle.sv_laws.specs.FreshStart.{FreshStart};
ghost use Rattle.sv_laws.specs.Gone.{ClosedHoldsNothing, CloseShuts};
ghost use Rattle.sv_laws.specs.InOrder.{InOrder};
ghost use Rattle.sv_laws.specs.InTime.{InTime, EachWaitInTime, AnsweredInTime};
ghost use Rattle.sv_laws.specs.LockFair.{WaitsWhileHeld, NoneOvertakes, OldestPasses, OldestGets, HolderKeeps, LockIsTaken, LockIsFreed};
ghost use Rattle.sv_laws.specs.QueryAlone.{QueryAlone, QueryLocked, HeldAlone, HeldLocked, NoQueryError, NoQueryErrorLocked};

/// A history has at most one log.
pub fn one_log()
    ensures { OneLog }
{}

/// While a link holds the lock, other connections change nothing that is sent on the connection
/// that created the link, and on that connection's interrupt channel (VXI-11 revision 1.0, section
/// B.4.4). There are three premises: no device_abort names a link of that connection; no
/// create_link comes on that connection; and when the events begin, no read or write of another
/// connection is suspended until the device can answer or accept it.
pub fn isolation()
    ensures { Isolation }
{}

/// The server sends the same bytes, no matter how its input is split into pieces, the records into
/// fragments, and the text into writes; only the replies to the writes differ. There are four
/// premises: there is room for each piece; each write is answered without error, and the answer
/// counts all bytes of the write; only the last write has END or a new line; and no read or write
/// was suspended before (RFC 5531, section 11: record marking; VXI-11 revision 1.0, section B.6,
/// device_write; IEEE 488.2, 6.1).
pub fn cuts()
    ensures pieces { RecordsCut }
    ensures writes { WritesCut }
{}

/// If nothing becomes due within a number of milliseconds, that many ticks change nothing but the
/// clock.
pub fn stillness()
    ensures { TimeOnlyCounts }
{}

/// Between two events no suspended call is past its deadline, and no suspended call can resume.
pub fn none_late()
    ensures { NoneLate }
{}

/// Which bytes peers take, and when, doesn't change what the server sends, as long as no event is
/// refused and no call on an interrupt channel is left out. And if on no connection more bytes
/// wait, no event but a Took is refused that wasn't refused before.
pub fn taking()
    ensures same { Taking }
    ensures none_refused { NoneRefused }
{}

/// Six kinds of events are never refused if the server's queries allow them: an Open of a free
/// number, Bytes that fit the room, a Took of bytes that wait, a Close of an open port, a Dialed
/// while a create_intr_chan waits for its peer, and an Input with a valid channel and voltage; nor
/// is the external trigger.
pub fn nothing_lost()
    ensures { NothingLost }
{}

/// While a connection is open, each call that was taken on it is either answered exactly once, or
/// suspended. This counts calls and replies; `replies_match` pairs them.
pub fn each_answered()
    ensures { EachAnswered }
{}

/// Each reply answers the call that was unanswered until then, and has that call's xid (RFC 5531,
/// section 9).
pub fn replies_match()
    ensures { RepliesMatch }
{}

/// A call that a Turn takes is answered at once, unless it is suspended because it can't go on yet
/// (VXI-11 revision 1.0, section B.4.4). A record that isn't a call gets no reply, and puts its
/// connection at fault.
pub fn turn_answered()
    ensures { TurnAnswered }
{}

/// Replies come in the order of the calls: the k-th reply on a connection has the xid of the k-th
/// record that came on it (RFC 5531, section 9).
pub fn in_order()
    ensures { InOrder }
{}

/// The lock goes to the calls in the order in which the server took them (VXI-11 revision 1.0,
/// section B.4.4). While a call waits for the lock, another link holds it. While a link holds the
/// lock, a new call that needs it is executed only on that link; on any other it changes nothing:
/// it waits, or fails. A call stops waiting for the lock in three ways only: the lock is free and
/// the call came first, and then it is executed or waits for the device; its connection is closed;
/// or it fails, by its own lock timeout or by a device_abort of its link. A link gets the lock only
/// by a device_lock or create_link that asks for it, and only in its turn.
pub fn lock_fair()
    ensures held { WaitsWhileHeld }
    ensures overtakes { NoneOvertakes }
    ensures passes { OldestPasses }
    ensures gets { OldestGets }
{}

/// A link that holds the lock keeps it until the connection that owns it unlocks or destroys the
/// link, or is closed (VXI-11 revision 1.0, sections B.4.4 and B.6). A device_lock, or a
/// create_link that asks for the lock, gives it the lock if it succeeds. A device_unlock that
/// succeeds takes the lock from its link.
pub fn holder_keeps()
    ensures keeps { HolderKeeps }
    ensures locks { LockIsTaken }
    ensures unlocks { LockIsFreed }
{}

/// A connection that isn't open, such as one that was closed, holds nothing: no live link, no
/// suspended call, no open interrupt channel and no link with service requests enabled; and no link
/// that it made holds the lock (VXI-11 revision 1.0, sections B.4.4 and B.6).
pub fn gone()
    ensures gone { ClosedHoldsNothing }
    ensures shut { CloseShuts }
{}

/// A call is answered before it has waited longer than its timeouts allow, counted from when the
/// server took it: the lock timeout, if its waitlock flag is set, and then the I/O timeout of a
/// read or a write (VXI-11 revision 1.0, section B.4.4). Each wait is shorter than its own timeout.
/// Only a create_intr_chan has no timeout, and waits for its peer.
pub fn in_time()
    ensures young { InTime }
    ensures answered { AnsweredInTime }
    ensures each { EachWaitInTime }
{}

/// Common commands and queries set, change and keep what IEEE 488.2 says: a poll, `*STB?`, `*CLS`,
/// `*RST`, and `*ESR?` (chapters 10 and 11).
pub fn conformance()
    ensures poll { PollEndsRequest }
    ensures status_byte { StatusByteLeaves }
    ensures clear { ClearClears }
    ensures reset { ResetLeaves }
    ensures standard { StandardReadOnce }
{}

/// STATus:PRESet and SYSTem:ERRor? set, change, return and keep what SCPI-1999 says (volume 2,
/// chapters 20 and 21).
pub fn scpi_conformance()
    ensures preset { PresetLeaves }
    ensures errors { ErrorsInOrder }
{}

/// When a device_clear is executed, message exchange is at rest, whatever was sent before (VXI-11
/// revision 1.0, section B.6; IEEE 488.2, 5.8). After device_clear, `*RST` and `*CLS`, with only
/// text between them, the scanner is idle with its default settings, and there is no event, no
/// error and no response; enables and filters are what they were.
pub fn fresh_start()
    ensures rest { ClearRests }
    ensures fresh { FreshStart }
{}

/// A connection that writes one query, and reads the response to its end before it writes again,
/// gets exactly the query's answer (IEEE 488.2, 6.1 and 6.3; VXI-11 revision 1.0, section B.6,
/// device_write and device_read). Among the premises are these: message exchange is at rest before
/// the write; no other link holds the lock; and until the read is answered no other call is
/// executed. The third premise isn't needed if the connection's link holds the lock: then other
/// connections may do anything but name its links in a device_abort. `READ?`, `MEASure?` and
/// `*OPC?` are answered when the measurement ends. A driver that sends one such message after
/// another, and commands, never gets a query error.
pub fn query_alone()
    ensures asked { QueryAlone }
    ensures locked { QueryLocked }
    ensures held { HeldAlone }
    ensures held_locked { HeldLocked }
    ensures rounds { NoQueryError }
    ensures rounds_locked { NoQueryErrorLocked }
{}
