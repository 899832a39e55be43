//! The busy-polling policy of a loop of sweeps: what it remembers, and what it decides.

ghost use Rattle.std.specs.Prelude.{◌≡◌, ◌↔◌, ◌-◌, ◌*◌, ◌/◌, ◌<◌, ◌≤◌, min, true, List, [], ◌∷◌};
ghost use Rattle.sv_pace.specs.Pace.{Wait, StandsFor, IsDue, after_wait, longer};

use std::marker::Model;

/// How many milliseconds a server sleeps at most, if nothing is due earlier.
pub const STILL: u32 = 100;
/// A server runs for a given number of sweeps. If nothing will ever be due and more sweeps than
/// this remain, it sleeps until something is reported about a socket. If this many sweeps or fewer
/// remain, it makes a sweep at least every [`STILL`] milliseconds, so that the run ends.
pub const FEW: u32 = 1_000_000;
/// The most milliseconds by which one sweep advances the server's clock, even if the previous sweep
/// began longer ago.
const MOST_TICKS: u64 = 1_000;
/// For how many nanoseconds the server may poll without sleeping, after something was reported
/// about a socket.
const WINDOW: u64 = 50_000;
/// How many nanoseconds a millisecond has.
const MILLISECOND: u64 = 1_000_000;
/// The most waits without polling that have to come before the server may poll again.
const MOST_SLEEPS: u32 = 1_024;

/// What a server's loop of sweeps remembers: two times, in nanoseconds since the loop began, and
/// how the waits between its sweeps ended.
///
/// If no report came in the last two waits in which the server polled, it polls only in some of the
/// next waits; in the others it sleeps at once. So it polls little on a machine whose cores are
/// busy.
#[derive(Drop)]
pub struct Pace {
    /// When the last sweep began.
    swept: u64,
    /// When something was last reported about a socket.
    worked: u64,
    /// Whether the server found nothing in the last wait in which it polled.
    missed: bool,
    /// How many waits without polling have to follow the last wait in which the server polled.
    pause: u32,
    /// How many more waits without polling have to come before the server may poll again.
    left: u32,
}

impl Model for Pace {
    ghost use Rattle.std.specs.Prelude.{◌≤◌};
    ghost use Rattle.sv_pace.specs.Pace.{Kept};

    ghost Value = { Kept };

    ghost view = { λ a. record {
      swept = a.swept;
      worked = a.worked;
      missed = a.missed;
      pause = a.pause;
      left = a.left;
    } };

    ghost invariant = { λ a. a.pause ≤ 1024 };
}

/// Returns how many waits without polling have to follow a miss: a wait in which the server polled
/// and found nothing. `missed` says whether the previous wait with polls was a miss too. If it was,
/// `pause` is the number that this function returned for that miss.
fn longer(missed: bool, pause: u32) -> u32
    requires { pause ≤ 1024 }
    ensures value { result ≡ longer missed pause }
    ensures within { result ≤ 1024 }
{
    if missed {
        (pause * 2).max(1).min(MOST_SLEEPS)
    } else {
        0
    }
}

impl Pace {
    /// Makes the policy of a loop that begins: the loop hasn't waited yet.
    pub fn new() -> Pace
        ensures times { (result.swept ≡ 0) × (result.worked ≡ 0) }
        ensures stands { StandsFor result [] }
    {
        Pace {
            swept: 0,
            worked: 0,
            missed: false,
            pause: 0,
            left: 0,
        }
    }

    /// Begins a sweep, and returns how many milliseconds of the clock have begun since the previous
    /// sweep, at most 1,000.
    pub fn ticks(&mut self, now: u64) -> u32
        ensures count { result ≡ min (now / 1000000 - self.old.swept / 1000000) 1000 }
        ensures kept { self.new ≡ record self.old { swept = now } }
    {
        let whole = (now / MILLISECOND).saturating_sub(self.swept / MILLISECOND);
        self.swept = now;
        whole.min(MOST_TICKS) as u32
    }

    /// Records that something was reported about a socket at the time `now`.
    pub fn work(&mut self, now: u64)
        ensures { self.new ≡ record self.old { worked = now } }
    {
        self.worked = now;
    }

    /// Whether to poll instead of sleeping: something was reported about a socket less than 50
    /// microseconds before `now`, and no wait without polling has to come first.
    pub fn is_spinning(&self, now: u64) -> bool
        ensures { (waits : List Wait) → StandsFor self.now waits
            → (result ≡ true) ↔ ((now - self.now.worked < 50000) × IsDue waits) }
    {
        (self.left == 0) & (now.saturating_sub(self.worked) < WINDOW)
    }

    /// Records how a wait ended. `looks` is how many times the server polled in this wait. `found`
    /// says whether the server found something. If it found nothing, it gave up polling and slept.
    pub fn end(&mut self, looks: u32, found: bool)
        ensures times { (self.new.swept ≡ self.old.swept) × (self.new.worked ≡ self.old.worked) }
        ensures stands { (waits : List Wait) → StandsFor self.old waits
            → StandsFor self.new (after_wait looks found waits) }
    {
        match (looks, found) {
            (0, true) => {}
            (0, false) => self.sleep(),
            (_, true) => self.spin_hit(),
            (_, false) => self.spin_miss(),
        }
    }

    /// Records a wait in which the server slept without polling.
    fn sleep(&mut self)
        ensures times { (self.new.swept ≡ self.old.swept) × (self.new.worked ≡ self.old.worked) }
        ensures stands { (waits : List Wait) → StandsFor self.old waits
            → StandsFor self.new (Wait.Slept ∷ waits) }
    {
        self.left = self.left.saturating_sub(1);
    }

    /// Records a wait in which the server polled and found something.
    fn spin_hit(&mut self)
        ensures times { (self.new.swept ≡ self.old.swept) × (self.new.worked ≡ self.old.worked) }
        ensures stands { (waits : List Wait) → StandsFor self.new (Wait.Found ∷ waits) }
    {
        self.missed = false;
        self.pause = 0;
        self.left = 0;
    }

    /// Records a wait in which the server polled and found nothing.
    fn spin_miss(&mut self)
        ensures times { (self.new.swept ≡ self.old.swept) × (self.new.worked ≡ self.old.worked) }
        ensures stands { (waits : List Wait) → StandsFor self.old waits
            → StandsFor self.new (Wait.Missed ∷ waits) }
    {
        self.pause = longer(self.missed, self.pause);
        self.missed = true;
        self.left = self.pause;
    }

    /// Returns how many nanoseconds the server may sleep: until `ticks` milliseconds have passed
    /// since the start of the millisecond in which the last sweep began; 0 if they have already
    /// passed.
    pub fn sleep_time(&self, now: u64, ticks: u32) -> u64
        ensures { result ≡ ticks * 1000000 - (now - self.now.swept / 1000000 * 1000000) }
    {
        let passed = now.saturating_sub(self.swept / MILLISECOND * MILLISECOND);
        (u64::from(ticks) * MILLISECOND).saturating_sub(passed)
    }
}
