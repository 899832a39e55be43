//! Laws of records, calls, replies and GETPORT. Each law is the contract of a function with an
//! empty body.

ghost use Rattle.sv_rpc.specs.Laws.{OneReading, ReadAsSplit, ReadAlone, OneCall, CallAsSpelled, PortAsSpelled, CallsPrefixFree, RepliesPrefixFree};

/// A stream of bytes splits in only one way into a list of records and a tail after them.
pub fn one_reading()
    ensures { OneReading }
{}

/// Every stream of bytes splits into the records that `records_of` returns and the tail that
/// `tail_of` returns, and in no other way.
pub fn read_as_split()
    ensures every { ReadAsSplit }
    ensures alone { ReadAlone }
{}

/// The function `call_at` returns the call that a record encodes or, if it encodes none, the fault
/// that says why. The function `port_at` returns the answer to a GETPORT call with the given
/// arguments.
pub fn read_as_spelled()
    ensures call { CallAsSpelled }
    ensures port { PortAsSpelled }
{}

/// The same bytes can't encode two different calls, can't have two different faults, and can't both
/// encode a call and have a fault.
pub fn one_call()
    ensures { OneCall }
{}

/// No header of a call is a proper prefix of another call's header, and no header of a reply is a
/// proper prefix of another reply's header. If the same bytes can be split in two ways into a
/// call's header and a rest, both headers are equal, and so are both rests. The same holds for a
/// reply's header and a rest.
pub fn prefix_free()
    ensures calls { CallsPrefixFree }
    ensures replies { RepliesPrefixFree }
{}
