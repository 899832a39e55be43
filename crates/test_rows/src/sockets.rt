//! Plays rows about the server over sockets. Each row gets a new server over real sockets of
//! 127.0.0.1, and peers in the same process. Prints what the peers get.
//!
//! The server makes some sweeps between two checks of whether bytes have come to a peer. The output
//! hardly depends on the speed of the machine: rows have lower bounds of times, and two have upper
//! bounds, hundreds of milliseconds later. If nothing comes to a peer for ten seconds, the program
//! ends with a fault.
//!
//! The ports are 24196 to 24200; nothing listens on 24195. A row has these lines. A letter such as
//! `a` or `i` names a peer:
//!
//! | Line | What it says |
//! |---|---|
//! | `0 input 1 250000` | an entry of the scenario; an empty line ends the entries |
//! | `control` | the server listens on the control port too |
//! | `a core` | the peer connects to the core channel; `abort` and `portmap` are the other ports |
//! | `a controls` | the peer connects to the control port |
//! | `a calls ADDRESS:PORT` | the peer tries to connect to this address |
//! | `a refused` | prints whether this attempt was refused |
//! | `a < 8000..` | the peer sends these bytes, which may have blanks between them |
//! | `a > N` | waits until N bytes have come to the peer, and prints them |
//! | `a before b` | prints whether peer a gets its next bytes no later than peer b |
//! | `a ends` | prints whether the peer's stream ends |
//! | `a silent` | prints whether for a while nothing comes to the peer, not even an end |
//! | `a closes` | the peer closes its stream |
//! | `i listens ADDRESS:PORT` | the peer listens there |
//! | `i accepts` | the peer accepts a connection there; the connection is then its stream |
//! | `a pours N 8000..` | the peer sends these calls N times, or until the sockets are full |
//! | `a drains N SIZE` | sends unsent calls; prints whether N replies of SIZE bytes come in order |
//! | `start` | a time measurement starts |
//! | `passed MILLISECONDS` | prints whether this time has passed since `start` |
//! | `sleep SWEEPS` | the server makes this many sweeps |
//! | `sweeps N` | from now on, the server makes N sweeps between two checks; else it makes 2 |

mod peer;
mod pouring;
pub(crate) mod row;
mod stage;
