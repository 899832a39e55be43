//! The end of a change: one status register after the other is updated, then the status byte.

ghost use Rattle.std.specs.Prelude.{◌≡◌, ℕ, false, List, ◌∷◌};
ghost use Rattle.sv_status.specs.declared.register.RegisterAct.{RegisterAct};
ghost use Rattle.sv_status.specs.declared.standard_event.StandardAct.{StandardAct};
ghost use Rattle.sv_status.specs.Register.{condition, StandsFor as Registers};
ghost use Rattle.sv_status.specs.StandardEvent.{StandsFor as Standards};
ghost use Rattle.sv_layers.specs.Act.{Act};
ghost use Rattle.sv_layers.specs.Change.{act_of};
ghost use Rattle.sv_layers.specs.Filter.{is_same as same_register};
ghost use Rattle.sv_layers.specs.Inside.LayerLogs.{EndsAs, own, own_standard};
ghost use Rattle.sv_layers.specs.Inside.Representation.{Begun, IsApplied};

use crate::change::{Change, RegisterChange, StatusChange};
use crate::layers::Layers;
use crate::status::mask_if;
use std::alloc::Allocator;
use sv_status::{Register, RegisterName, StandardEvent};

/// The bit of operation complete in the standard events.
const COMPLETE: u8 = 1 << 0;

/// The number of the bit of a nested register's summary in the condition of the register above it.
const SUMMARY: u32 = 9;

/// The summary bits of the status byte (IEEE 488.2, 11.2.1; SCPI-1999, chapter 20).
const OPERATION: u8 = 1 << 7;

const STANDARD: u8 = 1 << 5;

const AVAILABLE: u8 = 1 << 4;

const QUESTIONABLE: u8 = 1 << 3;

const ERRORS: u8 = 1 << 2;

impl<A: Allocator> Layers<A> {
    /// Ends a change, which was already applied to the layer that it belongs to: updates one status
    /// register after the other, then the status byte. If the condition of a register might have
    /// changed, the transitions of the condition bits first pass the register's filters as they
    /// were before the change. Then the change takes its direct effect on the register, such as
    /// setting a filter or clearing events. A nested register is updated before the register whose
    /// condition has the nested register's summary. If an `*OPC` is pending and no measurement is
    /// under way, the operation complete bit is set before the change takes its direct effect on
    /// the standard events. If the update of the status byte raises a request for service, counts
    /// the request.
    pub(crate) fn end(&mut self, change: &Change)
        ensures applied { (log : List Act) (act : Act) → Begun self.old act log
            → EndsAs (act_of change.now) act → IsApplied self.old.requests self.new (act ∷ log) }
        ensures exchange { self.new.exchange ≡ self.old.exchange }
        ensures scanner { self.new.scanner ≡ self.old.scanner }
    {
        let touched = self.scanner.touched();
        let now = self.scanner.conditions();
        compare(&mut self.operation, touched.operation, now.operation);
        change_register(&mut self.operation, RegisterName::Operation, change);
        let stood = self.limit.summary();
        compare(&mut self.limit, touched.limit, now.limit);
        change_register(&mut self.limit, RegisterName::Limit, change);
        let stands = self.limit.summary();
        let moved = touched.questionable | (stood != stands);
        let word = now.questionable | (u16::from(stands) << SUMMARY);
        compare(&mut self.questionable, moved, word);
        change_register(&mut self.questionable, RegisterName::Questionable, change);
        let idle = self.scanner.state().is_idle();
        self.standard.occur(mask_if(COMPLETE, self.waits & idle));
        self.waits &= !idle;
        change_standard(&mut self.standard, change);
        let bits = mask_if(OPERATION, self.operation.summary())
            + mask_if(STANDARD, self.standard.summary())
            + mask_if(AVAILABLE, self.exchange.readable())
            + mask_if(QUESTIONABLE, self.questionable.summary())
            + mask_if(ERRORS, self.errors.count() > 0);
        let raised = self.status.update(bits, self.service);
        self.requests = self.requests.saturating_add(u8::from(raised));
    }
}

/// Sets the condition of a register to `word`, if `touched` says that the condition might have
/// changed. The transitions of the condition bits pass the register's filters.
fn compare(register: &mut Register, touched: bool, word: u16)
    ensures { (start : ℕ) (acts : List RegisterAct) → Registers start register.old acts
        → (touched ≡ false → word ≡ condition acts)
        → Registers start register.new (RegisterAct.Condition word ∷ acts) }
{
    if touched {
        register.condition(word);
    }
}

/// Applies the direct effect of a change on a status register, if it has one: clears its events, or
/// sets its enable or its filters.
fn change_register(register: &mut Register, name: RegisterName, change: &Change)
    ensures { (start : ℕ) (acts : List RegisterAct) → Registers start register.old acts
        → Registers start register.new (own name (act_of change.now) acts) }
{
    let own = match change {
        Change::ClearStatus => return register.clear(),
        Change::Preset => return register.preset(),
        Change::Status(StatusChange::Register(other, own)) if is_same(name, *other) => *own,
        _ => return,
    };
    match own {
        RegisterChange::ReadEvents => {
            register.read_event();
        }
        RegisterChange::Enable(mask) => register.set_enable(mask),
        RegisterChange::SetRise(mask) => {
            let fall = register.fall();
            register.set_filter(mask, fall);
        }
        RegisterChange::SetFall(mask) => {
            let rise = register.rise();
            register.set_filter(rise, mask);
        }
    }
}

/// Applies the direct effect of a change on the standard events, if it has one: clears the events,
/// or sets their enable.
fn change_standard(standard: &mut StandardEvent, change: &Change)
    ensures { (acts : List StandardAct) → Standards standard.old acts
        → Standards standard.new (own_standard (act_of change.now) acts) }
{
    match change {
        Change::ClearStatus => standard.clear(),
        Change::Status(StatusChange::ReadStandard) => {
            standard.read();
        }
        Change::Status(StatusChange::EnableStandard(mask)) => standard.set_enable(*mask),
        _ => {}
    }
}

/// Whether two names are the same.
fn is_same(first: RegisterName, second: RegisterName) -> bool
    ensures { result ≡ same_register first second }
{
    first == second
}
