//! Plays rows about the driver of `sv_serve`. Each row gets a new driver over a wire whose answers
//! are given by the lines of the row. Prints the calls that the driver made to the wire's
//! functions. The crate `sv_recording` records these function calls as the trace that the laws of
//! `sv_driver_laws` are about.
//!
//! A row of the kind `sweeps` has these lines:
//!
//! | Line | What it says |
//! |---|---|
//! | `clock MILLISECONDS` | the clock at the beginning; 0 without this line |
//! | `memory N` | when the driver is created, the Nth allocation fails |
//! | `0 input 1 250000` | an entry of a scenario; all entries come before the sweeps |
//! | `sweep TICKS` | a sweep in which this many milliseconds pass |
//! | `sweep TICKS memory N` | a sweep as above, whose Nth allocation fails |
//! | `CALL: ANSWER` | below a sweep: the wire's answer to this call in the sweep |
//! | `still N` | below a sweep: prints whether nothing becomes due within N milliseconds |
//! | `played` | below a sweep: prints whether the scenario is at its end |
//! | `stimulus input 1 250000` | after the sweep: hands this stimulus in, or prints that it is none
//! | | `script` | after the sweep: prints what the driver's journal has written |
//!
//! A row of the kind `peers N` makes N sweeps. It has a line of hexadecimal for each peer, which
//! sends these bytes on the core channel. The row prints what each peer gets on its connection and
//! on its interrupt channel, as `c0 80..` and `i0 80..`. Then the row is played again and again,
//! and each time one call that the driver makes to the wire fails: the first accept, the second
//! accept, and so on; and likewise for `read`, `write`, `dial` and `dialed`. Each time, the row
//! prints for each peer: `struck` if a call for the peer failed; else `whole` if the peer got every
//! byte; else `lacks bytes`.
//!
//! A row of the kind `pace` asks what the loop of sweeps decides. Times are in nanoseconds since
//! the loop began. `ticks NOW` prints how many milliseconds pass in a sweep that begins at NOW.
//! `sleep_time NOW TICKS` prints for how many nanoseconds the loop may sleep at NOW, if it has
//! nothing to do until TICKS milliseconds after the start of the last sweep's millisecond. `eager
//! NOW` prints whether the loop polls again without sleeping. Three lines print nothing, but tell
//! the loop what happened: `work NOW`, that a poll at NOW reported a ready socket; `found N`, that
//! a wait of N polls ended with a report; `nothing N`, that a wait of N polls ended without a
//! report. `vain N` makes N runs of polls that find nothing. Each run begins as soon as the loop
//! may poll without sleeping, and the row prints how many times the loop sleeps before the run.
//!
//! Each call that the driver makes to the wire is printed as a line: `core 0` accepts a connection
//! as number 0, and `core -` accepts one that is dropped; `read 0`; `probe 0`, with ` drops` if
//! bytes that come are dropped; `write c0 80..` with the bytes in hexadecimal, or `write i0 80..`
//! for an interrupt channel; `dial 0 7f000001:4242`; `dialed 0`; `close c0`. The call in a line
//! `CALL: ANSWER` ends after its number or port, as in `write c0: later`; `core`, `abort` and
//! `portmap` have no number there. The answer `yes` means that a connection comes, or that a peer
//! answers; `fails` is a fault; `later` means that there is nothing yet; a number is how many bytes
//! are taken; hexadecimal digits are bytes that come. If a call has no line `CALL: ANSWER`, the
//! wire answers that there is nothing yet; but a write takes all bytes.

pub(crate) mod failing;
pub(crate) mod pacing;
mod peers;
mod scripted;
mod shown;
pub(crate) mod sweeps;
