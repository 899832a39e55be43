//! Laws of the sockets. Each is the contract of a function that does nothing.

ghost use Rattle.std.specs.Prelude.{◌≡◌, ◌<◌};
ghost use Rattle.sv_history.specs.declared.event.Port.{Port};
ghost use Rattle.sv_history.specs.Event.{port_number};
ghost use Rattle.sv_driver_laws.specs.Carried.{Carried};
ghost use Rattle.sv_net.specs.Sockets.{socket_number, Hears};

use crate::net::Net;
use crate::stream::Stream;
use std::alloc::Allocator;
use std::net::Net as Network;
use sv_serve::Journal;

/// Each connection and each interrupt channel has a socket of its own.
pub fn own_sockets()
    ensures { (port other : Port) → port_number port < 16 → port_number other < 16
        → socket_number port ≡ socket_number other → port ≡ other }
{}

/// The law `carried` of `sv_driver_laws` holds for a driver whose wire is these sockets: the server
/// receives what is read from the sockets, and what is written to the sockets is what the server
/// sends. The law covers the sweeps of [`serve`](crate::serve).
pub fn carried<N: Network + Drop, A: Allocator, S: Stream, J: Journal>()
    ensures { Carried (Hears S.remaining S.contents) J.notes }
{
    sv_driver_laws::laws::carried::<Net<N, A, S>, J>();
}
