//! Laws of one sweep of a driver, and of any number of sweeps. Each is the contract of a function
//! that does nothing.

ghost use Rattle.sv_driver_laws.specs.Carried.{Carried};
ghost use Rattle.sv_driver_laws.specs.Determined.{Determined, ByAnswers};
ghost use Rattle.sv_driver_laws.specs.Served.{Served};

use sv_serve::{Journal, Wire};

/// In any number of sweeps, every byte that is read from the wire enters the stream of its
/// connection, and every byte that the wire takes is one that the server sends: in the same order,
/// and no byte is lost or doubled. The events that the server gets from the wire are exactly those
/// that the wire's answers cause; a connection that the wire accepts without a number is no event.
/// As time passes, exactly the entries of a valid scenario that are due are applied; and each
/// stimulus that was handed in, as if it were an entry. The journal notes exactly these events.
pub fn carried<W: Wire, J: Journal>()
    ensures { Carried W.hears J.notes }
{}

/// After all reads of a sweep, the next call of each connection is taken, if there is a call to
/// take and the output has room for the longest reply. If memory for this call is refused, the call
/// is answered with error 9. The bytes that then wait on the connection are passed to the wire in
/// the same sweep. A sweep takes at most one call of each connection. For each interrupt channel
/// that has to be connected, the wire is asked to connect it, or whether the peer that was dialed
/// before has answered. What waits on any port when the sweep's time has passed is passed to the
/// wire too, unless the port is an interrupt channel that is closed by the end of the sweep.
pub fn served<W: Wire, J: Journal>()
    ensures { Served W.hears J.notes }
{}

/// Two new drivers with the same configuration and the same scenario make as many sweeps, over any
/// two wires. The same milliseconds pass in each sweep, and the same stimuli are handed in between
/// the same sweeps. They ask their wires the same, write the same bytes, and give their servers the
/// same events, until the wires answer the same question differently, or memory for a call is
/// refused to one of them alone. So if the wires give the same answers in the same order, and
/// memory is never refused, both runs are the same.
pub fn determined<W: Wire, V: Wire, J: Journal, K: Journal>()
    ensures until { Determined W.hears J.notes V.hears K.notes }
    ensures by_answers { ByAnswers }
{}
