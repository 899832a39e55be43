//! How long a server may sleep.

ghost use Rattle.std.specs.Prelude.{◌≡◌, ◌≤◌, ◌⊎◌, true, false};
ghost use Rattle.sv_net.specs.Sleep.{NoneReady, IsIdle, MaySleep};

use crate::net::Net;
use crate::stream::Stream;
use std::alloc::Allocator;
use std::net::Net as Network;
use std::time::Duration;
use sv_pace::{FEW, Pace, STILL};
use sv_serve::{Driver, Journal};

/// Whether any connection has a call to take.
fn is_ready<N: Network + Drop, A: Allocator, S: Stream, J: Journal + Drop>(
    driver: &Driver<Net<N, A, S>, A, J>,
) -> bool
    ensures { result ≡ false → NoneReady driver.now }
{
    let server = driver.server();
    for conn in 0..server.connections_used() {
        if server.ready(conn) {
            return true;
        }
    }
    false
}

/// Whether nothing becomes due within this number of milliseconds, and no connection has a call to
/// take.
fn is_idle<N: Network + Drop, A: Allocator, S: Stream, J: Journal + Drop>(
    driver: &Driver<Net<N, A, S>, A, J>,
    ticks: u32,
) -> bool
    ensures { result ≡ true → IsIdle ticks driver.now }
{
    driver.is_still(ticks) & !is_ready(driver)
}

/// Returns for how many milliseconds after the last sweep the server may sleep at most: until
/// something might become due, or until the next accept is due.
fn longest<N: Network + Drop, A: Allocator, S: Stream, J: Journal + Drop>(
    driver: &Driver<Net<N, A, S>, A, J>,
) -> u32
    ensures { (result ≡ 1) ⊎ ((result ≤ 100) × IsIdle 100 driver.now) }
{
    if is_idle(driver, STILL) {
        driver.wire().patience()
    } else {
        1
    }
}

/// Returns how long the server may sleep at most, if `left` sweeps remain. Returns `None` (no
/// limit) only if more than a million sweeps remain, and nothing will ever be due: no entry of the
/// scenario remains, and nothing becomes due within 4,294,967,295 ms, the longest timeout of a call
/// (VXI-11 revision 1.0, section B.4.4).
pub(crate) fn sleep_time<N: Network + Drop, A: Allocator, S: Stream, J: Journal + Drop>(
    driver: &Driver<Net<N, A, S>, A, J>,
    pace: &Pace,
    now: u64,
    left: u32,
) -> Option<Duration>
    ensures { MaySleep left pace.now.swept now result driver.now }
{
    let readable = driver.wire().is_readable();
    if left > FEW && !readable && driver.is_played() && is_idle(driver, u32::MAX) {
        return None;
    }
    Some(Duration::from_nanos(pace.sleep_time(now, longest(driver))))
}
