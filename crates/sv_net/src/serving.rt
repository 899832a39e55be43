//! The loop of sweeps.

ghost use Rattle.std.specs.Prelude.{◌≡◌, OnOk, OnErr, IfOk};
ghost use Rattle.sv_net.specs.Sockets.{Hears};
ghost use Rattle.sv_net.specs.Serving.{Waited, is_fresh, is_told, Served, Stopped};
ghost use Rattle.sv_net.specs.Inside.Pausing.{is_quiet, Rounds, Hands, Pauses, Fails};

use crate::machine::Machine;
use crate::net::Net;
use crate::sleep_time::sleep_time;
use crate::stream::Stream;
use crate::work::has_work;
use std::alloc::Allocator;
use std::io::{self, Error, ErrorKind};
use std::net::Net as Network;
use std::time::Duration;
use sv_pace::Pace;
use sv_serve::{Driver, Journal};

/// The most polls without sleeping that are allowed between two sweeps.
const LOOKS: u32 = 1_000;
/// The most stimuli that are handed in between two sweeps: one for each client of the control port.
const STIMULI: u32 = 4;

/// Makes this number of sweeps. Between two sweeps, waits until the machine reports something about
/// a socket, or something is due. Each sweep lets as many milliseconds pass for the server as
/// milliseconds of the machine's clock have begun since the previous sweep, but at most 1,000. The
/// machine's time has to be 0 when `serve` is called: it is a new machine. Before each sweep, the
/// server gets at most four stimuli of the machine.
///
/// If no report comes, the wait ends at the next whole millisecond. But if nothing becomes due
/// within 100 milliseconds, it ends after 100 milliseconds at the latest. If nothing will ever be
/// due, and more than a million sweeps remain, only a report ends the wait. For 50 microseconds
/// after a report the loop polls without sleeping, if polling found something of late. The clock is
/// read after each wait: thus deadlines are met even while many peers send calls without a pause.
///
/// # Errors
/// If a wait of the machine fails. Then the sweeps before this wait were made. Or if the driver's
/// journal has lost an event: then the sweep after which it had was the last one.
pub fn serve<M: Machine<S>, N: Network + Drop, A: Allocator, S: Stream, J: Journal + Drop>(
    machine: &mut M,
    driver: &mut Driver<Net<N, A, S>, A, J>,
    sweeps: u32,
) -> io::Result<()>
    ensures ok { OnOk result (Served sweeps (Hears S.remaining S.contents) J.notes J.lost
        M.answers driver.old driver.new machine.old machine.new) }
    ensures err { OnErr result (Stopped sweeps (Hears S.remaining S.contents) J.notes J.lost
        M.answers M.fails driver.old driver.new machine.old machine.new) }
{
    let mut pace = Pace::new();
    let mut now = 0;
    for made in 0..sweeps {
        stimulate(machine, driver);
        sweep(machine, driver, pace.ticks(now));
        if driver.journal().is_lost() {
            return Err(Error::from(ErrorKind::WriteZero));
        }
        now = pause(machine, driver, &mut pace, now, sweeps - 1 - made)?;
    }
    Ok(())
}

/// Hands the stimuli that the machine has to the driver, at most four.
fn stimulate<M: Machine<S>, N: Network + Drop, A: Allocator, S: Stream, J: Journal + Drop>(
    machine: &mut M,
    driver: &mut Driver<Net<N, A, S>, A, J>,
)
    ensures { Hands (Hears S.remaining S.contents) J.notes M.answers driver.old driver.new
        machine.old machine.new }
{
    for _ in 0..STIMULI {
        if !stimulate_once(machine, driver) {
            return;
        }
    }
}

/// Hands the next stimulus of the machine to the driver. Returns whether there was one.
fn stimulate_once<M: Machine<S>, N: Network + Drop, A: Allocator, S: Stream, J: Journal + Drop>(
    machine: &mut M,
    driver: &mut Driver<Net<N, A, S>, A, J>,
) -> bool
    ensures { Hands (Hears S.remaining S.contents) J.notes M.answers driver.old driver.new
        machine.old machine.new }
{
    match machine.stimulus() {
        Some(stimulus) => {
            driver.stimulate(stimulus);
            true
        }
        None => false,
    }
}

/// Makes a sweep in which `ticks` milliseconds pass. The sockets get the last wait's reports: if
/// `ticks` is 0, before the sweep begins; else after the sweep has ended.
fn sweep<M: Machine<S>, N: Network + Drop, A: Allocator, S: Stream, J: Journal + Drop>(
    machine: &mut M,
    driver: &mut Driver<Net<N, A, S>, A, J>,
    ticks: u32,
)
    ensures { Rounds (Hears S.remaining S.contents) J.notes M.answers ticks driver.old driver.new
        machine.old machine.new }
{
    if ticks == 0 {
        machine.report(driver.wire());
        driver.sweep(0);
    } else {
        driver.sweep(ticks);
        machine.report(driver.wire());
    }
}

/// Waits until something is reported about a socket, or until the time `limit` has passed. If
/// `limit` is `None`, only a report ends the wait. Returns whether something was reported, and when
/// the wait ended.
fn wait<M: Machine<S>, S: Stream>(
    machine: &mut M,
    pace: &mut Pace,
    limit: Option<Duration>,
) -> io::Result<(bool, u64)>
    ensures answers { IfOk result (λ ended.
        M.answers machine.old (Waited limit ended.0 ended.1) machine.new) }
    ensures fails { OnErr result (M.fails machine.old limit machine.new) }
    ensures swept { pace.new.swept ≡ pace.old.swept }
{
    let (reported, now) = machine.wait(limit)?;
    if reported {
        pace.work(now);
    }
    Ok((reported, now))
}

/// Waits until the next sweep is to begin, and returns the time then. `left` sweeps remain. The
/// loop sleeps if neither the next sweep (`has_work`) nor the machine (`is_busy`) has work, and
/// `pace` doesn't say to poll without sleeping. Else the loop polls once. Then the sweep begins if
/// one of them has work or if the poll found a report. If not, the loop goes on polling (`spin`).
fn pause<M: Machine<S>, N: Network + Drop, A: Allocator, S: Stream, J: Journal + Drop>(
    machine: &mut M,
    driver: &Driver<Net<N, A, S>, A, J>,
    pace: &mut Pace,
    began: u64,
    left: u32,
) -> io::Result<u64>
    ensures pauses { IfOk result (λ ended. Pauses (Hears S.remaining S.contents) J.notes M.answers
        driver.now is_told is_fresh left pace.old.swept began ended machine.old machine.new) }
    ensures fails { OnErr result (Fails (Hears S.remaining S.contents) J.notes M.answers M.fails
        driver.now is_told left pace.old.swept began machine.old machine.new) }
    ensures swept { pace.new.swept ≡ pace.old.swept }
{
    let spinning = pace.is_spinning(began);
    if !spinning && !has_work(driver) && !machine.is_busy() {
        pace.end(0, false);
        return sleep(machine, driver, pace, began, left);
    }
    let (reported, now) = wait(machine, pace, Some(Duration::ZERO))?;
    if !spinning || reported || has_work(driver) || machine.is_busy() {
        return Ok(now);
    }
    spin(machine, driver, pace, now, left)
}

/// Polls until something is reported, or until as many polls were made as are allowed between two
/// sweeps. As soon as `pace` says not to poll any more, sleeps instead. Returns the time at which
/// the last poll or the sleep ended.
fn spin<M: Machine<S>, N: Network + Drop, A: Allocator, S: Stream, J: Journal + Drop>(
    machine: &mut M,
    driver: &Driver<Net<N, A, S>, A, J>,
    pace: &mut Pace,
    began: u64,
    left: u32,
) -> io::Result<u64>
    ensures pauses { IfOk result (λ ended. Pauses (Hears S.remaining S.contents) J.notes M.answers
        driver.now is_quiet is_fresh left pace.old.swept began ended machine.old machine.new) }
    ensures fails { OnErr result (Fails (Hears S.remaining S.contents) J.notes M.answers M.fails
        driver.now is_quiet left pace.old.swept began machine.old machine.new) }
    ensures swept { pace.new.swept ≡ pace.old.swept }
{
    let mut now = began;
    for looks in 1..LOOKS {
        if !pace.is_spinning(now) {
            pace.end(looks, false);
            return sleep(machine, driver, pace, now, left);
        }
        let (reported, ended) = wait(machine, pace, Some(Duration::ZERO))?;
        if reported {
            pace.end(looks, true);
            return Ok(ended);
        }
        now = ended;
    }
    Ok(now)
}

/// Sleeps until something is reported about a socket or something is due. Returns the time at which
/// the sleep ended.
fn sleep<M: Machine<S>, N: Network + Drop, A: Allocator, S: Stream, J: Journal + Drop>(
    machine: &mut M,
    driver: &Driver<Net<N, A, S>, A, J>,
    pace: &mut Pace,
    now: u64,
    left: u32,
) -> io::Result<u64>
    ensures pauses { IfOk result (λ ended. Pauses (Hears S.remaining S.contents) J.notes M.answers
        driver.now is_told is_fresh left pace.old.swept now ended machine.old machine.new) }
    ensures fails { OnErr result (Fails (Hears S.remaining S.contents) J.notes M.answers M.fails
        driver.now is_told left pace.old.swept now machine.old machine.new) }
    ensures swept { pace.new.swept ≡ pace.old.swept }
{
    let limit = sleep_time(driver, pace, now, left);
    let (_, ended) = wait(machine, pace, limit)?;
    Ok(ended)
}
