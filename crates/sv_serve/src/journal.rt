//! A journal gets each event that a driver's server applies.

ghost use Rattle.std.specs.Prelude.{List};
ghost use Rattle.sv_history.specs.Event.{PlainEvent, plain};
ghost use Rattle.sv_history.specs.History.{history_after};

use sv_server::{Did, Event, Refused};

/// What gets each event that a driver's server applies, in order.
pub trait Journal {
    ghost use Rattle.std.specs.Prelude.{◌≡◌, ◌∷◌, Bool, false, List, ⊤};
    ghost use Rattle.sv_history.specs.Event.{PlainEvent, plain};

    /// These events, the newest first, lead from one state of the journal to another. By default
    /// this relation says nothing: a journal needn't keep anything.
    ghost notes: { Self → List PlainEvent → Self → Type 0 } = { λ first history now. ⊤ };

    /// Whether an event was lost. By default none ever is.
    ghost lost: { Self → Bool } = { λ journal. false };

    /// Notes an event that the server has applied.
    fn note(&mut self, event: Event<'_>)
        ensures { (first : Self) (history : List PlainEvent) → notes first history self.old
            → notes first (plain event.entry ∷ history) self.new };

    /// Passes on what was noted since the last flush. The driver calls this at the end of each
    /// sweep.
    fn flush(&mut self)
        ensures { (first : Self) (history : List PlainEvent) → notes first history self.old
            → notes first history self.new };

    /// Whether an event was lost. Then the journal can keep no later event either.
    fn is_lost(&self) -> bool
        ensures { result ≡ lost self.now };
}

/// The journal that keeps nothing.
impl Journal for () {
    fn note(&mut self, _: Event<'_>) {}

    fn flush(&mut self) {}

    fn is_lost(&self) -> bool {
        false
    }
}

/// Notes an event, if the server's answer says that it was applied.
pub(crate) fn note<J: Journal>(journal: &mut J, event: Event<'_>, answer: Result<Did, Refused>)
    ensures { (first : J) (history : List PlainEvent) → J.notes first history journal.old
        → J.notes first (history_after (plain event.entry) answer history) journal.new }
{
    match answer {
        Ok(_) => journal.note(event),
        Err(_) => {}
    }
}
