//! The scanner.

ghost use Rattle.std.specs.Prelude.{◌≡◌, ◌≢◌, ◌≤◌, true, false, [], ◌∷◌, List, length, IfOk, OnOk, OnErr, MatchResult, if◌then◌else◌};
ghost use Rattle.std.specs.List.{list_all};
ghost use Rattle.sv_errors.specs.declared.code.Code.TheVariants.{DataCorruptOrStale};
ghost use Rattle.sv_scan.specs.declared.setting.State.TheVariants.{Waiting, Scanning};
ghost use Rattle.sv_scan.specs.Setting.{is_possible as may_have};
ghost use Rattle.sv_scan.specs.Scan.{state as state_of, readings as readings_of, last_reading as last_of, is_complete as completes, is_bounded};
ghost use Rattle.sv_scan.specs.Counted.{effective, setting_fault, init_fault, trigger_fault, read_fault, is_scanning as scans};
ghost use Rattle.sv_scan.specs.Condition.{operation, questionable, limit};
ghost use Rattle.sv_scan.specs.Answered.{refused_by};
ghost use Rattle.sv_scan.specs.Touched.{nothing};
ghost use Rattle.sv_errors.specs.Limits.{is_channel as is_there, most_readings};
ghost use Rattle.sv_scan.specs.Stands.{StandsFor};
ghost use Rattle.sv_scan.specs.Representation.{run_state};

use crate::acts::{ScanAct, ScanAnswer};
use crate::possible::{is_fixed, is_possible};
use crate::reading::{is_above, is_below, is_overload, reading_in, voltage};
use crate::run::Run;
use crate::setting::{Reading, Setting, State};
use crate::settings::Settings;
use crate::state::is_same;
use crate::touched::Touched;
use crate::words::{
    ABOVE, ACQUIRING, BELOW, Conditions, MEASURING, OUTSIDE, OVERLOAD, WAITING, mask_if,
};
use std::alloc::{AllocError, Allocator, Global};
use std::marker::Model;
use sv_errors::{CHANNELS, Code, Layer, MOST_READINGS, Source, is_channel};

/// The measuring part of the instrument: its inputs, its settings, and the current or last
/// measurement with its readings.
#[derive(Drop)]
pub struct Scanner<A: Allocator = Global> {
    /// The input of each channel, in microvolts, in the order of the channels' numbers.
    inputs: [i64; CHANNELS],
    /// The settings.
    pub(crate) settings: Settings,
    /// The measurement that was initiated last; `None` if no measurement was initiated, or if an
    /// abort or a reset came later.
    pub(crate) run: Option<Run>,
    /// The readings of the measurement, oldest first; none without a measurement.
    pub(crate) readings: Vec<Reading, A>,
    /// Which condition words of the status registers might have changed at the newest act that took
    /// effect.
    pub(crate) touched: Touched,
}

impl<A: Allocator> Model for Scanner<A> {
    ghost use Rattle.sv_scan.specs.Stands.{Contents};

    ghost Value = { Contents };

    ghost use Rattle.std.specs.Prelude.{vec_capacity};
    ghost use Rattle.sv_scan.specs.Representation.{contents_of, IsValid};

    ghost view = { λ a. contents_of a.inputs a.settings a.run a.readings.items a.touched };

    ghost invariant = { λ a. IsValid (contents_of a.inputs a.settings a.run a.readings.items
        a.touched) (vec_capacity a.readings) };
}

impl<A: Allocator> Scanner<A> {
    /// A scanner with all settings at their defaults and all inputs 0. The memory of all readings
    /// is allocated here.
    ///
    /// # Errors
    /// If memory is refused.
    pub fn new(alloc: A) -> Result<Scanner<A>, AllocError>
        ensures { IfOk result (λ scanner. StandsFor scanner []) }
    {
        Ok(Scanner {
            inputs: [0; CHANNELS],
            settings: Settings::new(),
            run: None,
            readings: Vec::with_capacity(alloc, MOST_READINGS)?,
            touched: Touched {
                operation: false,
                questionable: false,
                limit: false,
            },
        })
    }

    /// Sets the input of a channel to this voltage, in microvolts. If no channel has this number,
    /// nothing changes. If the channel isn't the monitored channel, no condition word changes.
    pub fn input(&mut self, channel: u8, microvolts: i64)
        ensures stands { (acts : List ScanAct) → StandsFor self.old acts
            → StandsFor self.new (ScanAct.Input channel microvolts ∷ acts) }
        ensures untouched { channel ≢ self.old.monitor → self.new.touched
            ≡ (if is_there channel then nothing else self.old.touched) }
    {
        if is_channel(u64::from(channel)) {
            self.inputs[usize::from(channel) - 1] = microvolts;
            self.touched = Touched {
                operation: false,
                questionable: false,
                limit: channel == self.settings.monitor,
            };
        }
    }

    /// Changes a setting.
    ///
    /// # Errors
    /// The first that applies: [`Code::DataOutOfRange`] if this value of the setting isn't allowed;
    /// [`Code::SettingsConflict`] if the setting can't be changed during a measurement, and a
    /// measurement is under way. Nothing changes then.
    pub fn configure(&mut self, setting: Setting) -> Result<(), Code>
        ensures stands { (acts : List ScanAct) → StandsFor self.old acts
            → StandsFor self.new (ScanAct.Configure setting ∷ acts) }
        ensures answer { (acts : List ScanAct) → StandsFor self.old acts
            → result ≡ refused_by (setting_fault (effective acts) setting) }
        ensures refused { OnErr result (self.new ≡ self.old) }
    {
        self.may_set(&setting)?;
        self.settings.set(setting);
        self.touched = Touched {
            operation: false,
            questionable: false,
            limit: true,
        };
        Ok(())
    }

    /// Whether [`Scanner::configure`] would change a setting.
    ///
    /// # Errors
    /// The error that [`Scanner::configure`] would return: [`Code::DataOutOfRange`] if this value
    /// of the setting isn't allowed; else [`Code::SettingsConflict`] if the setting can't be
    /// changed during a measurement, and a measurement is under way.
    pub fn may_set(&self, setting: &Setting) -> Result<(), Code>
        ensures answer { (acts : List ScanAct) → StandsFor self.now acts
            → result ≡ refused_by (setting_fault (effective acts) setting.now) }
        ensures possible { OnOk result (may_have setting.now ≡ true) }
    {
        if !is_possible(setting) {
            return Err(Code::DataOutOfRange);
        }
        if is_fixed(setting) && !self.state().is_idle() {
            return Err(Code::SettingsConflict);
        }
        Ok(())
    }

    /// Initiates a measurement with the current scan list and count.
    ///
    /// # Errors
    /// [`Code::InitIgnored`] if a measurement is under way. Nothing changes then.
    pub fn init(&mut self) -> Result<(), Code>
        ensures stands { (acts : List ScanAct) → StandsFor self.old acts
            → StandsFor self.new (ScanAct.Init ∷ acts) }
        ensures answer { (acts : List ScanAct) → StandsFor self.old acts
            → result ≡ refused_by (init_fault (effective acts)) }
        ensures refused { OnErr result (self.new ≡ self.old) }
    {
        self.may_init()?;
        self.readings.clear();
        self.run = Some(Run {
            list: self.settings.list,
            scans: self.settings.count,
            triggers: 0,
        });
        self.touched = Touched {
            operation: true,
            questionable: true,
            limit: true,
        };
        Ok(())
    }

    /// Whether [`Scanner::init`] would initiate a measurement.
    ///
    /// # Errors
    /// [`Code::InitIgnored`] if a measurement is under way.
    pub fn may_init(&self) -> Result<(), Code>
        ensures { (acts : List ScanAct) → StandsFor self.now acts
            → result ≡ refused_by (init_fault (effective acts)) }
    {
        if !self.state().is_idle() {
            return Err(Code::InitIgnored);
        }
        Ok(())
    }

    /// Whether the controller can wait for the readings of a measurement, as `READ?` does.
    ///
    /// # Errors
    /// [`Code::TriggerDeadlock`] if the trigger source is the bus: the controller can't send a
    /// trigger while it waits.
    pub fn may_read(&self) -> Result<(), Code>
        ensures { (acts : List ScanAct) → StandsFor self.now acts
            → result ≡ refused_by (read_fault (effective acts)) }
    {
        if is_same(self.settings.source, Source::Bus) {
            return Err(Code::TriggerDeadlock);
        }
        Ok(())
    }

    /// Ends the measurement, if there is one, and drops its readings.
    pub fn abort(&mut self)
        ensures { (acts : List ScanAct) → StandsFor self.old acts
            → StandsFor self.new (ScanAct.Abort ∷ acts) }
    {
        self.run = None;
        self.readings.clear();
        self.touched = Touched {
            operation: true,
            questionable: true,
            limit: true,
        };
    }

    /// Ends the measurement, and sets each setting to its default. The inputs don't change.
    pub fn reset(&mut self)
        ensures { (acts : List ScanAct) → StandsFor self.old acts
            → StandsFor self.new (ScanAct.Reset ∷ acts) }
    {
        self.run = None;
        self.readings.clear();
        self.settings = Settings::new();
        self.touched = Touched {
            operation: true,
            questionable: true,
            limit: true,
        };
    }

    /// Applies a trigger from this source: the next scan begins.
    ///
    /// # Errors
    /// [`Code::TriggerIgnored`] if the scanner doesn't wait for a trigger, or waits for a trigger
    /// from another source. Nothing changes then.
    pub fn trigger(&mut self, source: Source) -> Result<(), Code>
        ensures stands { (acts : List ScanAct) → StandsFor self.old acts
            → StandsFor self.new (ScanAct.Trigger source ∷ acts) }
        ensures answer { (acts : List ScanAct) → StandsFor self.old acts
            → result ≡ refused_by (trigger_fault (effective acts) source) }
        ensures refused { OnErr result (self.new ≡ self.old) }
        ensures scanning { OnOk result
            ((run_state self.old.run (length self.old.readings) ≡ Waiting)
            × (run_state self.new.run (length self.new.readings) ≡ Scanning)) }
    {
        self.may_trigger(source)?;
        let Some(run) = &mut self.run else {
            return Err(Code::TriggerIgnored);
        };
        run.trigger();
        self.touched = Touched {
            operation: true,
            questionable: false,
            limit: false,
        };
        Ok(())
    }

    /// Whether [`Scanner::trigger`] with this source would begin the next scan.
    ///
    /// # Errors
    /// [`Code::TriggerIgnored`] if the scanner doesn't wait for a trigger, or waits for a trigger
    /// from another source.
    pub fn may_trigger(&self, source: Source) -> Result<(), Code>
        ensures answer { (acts : List ScanAct) → StandsFor self.now acts
            → result ≡ refused_by (trigger_fault (effective acts) source) }
        ensures waiting { OnOk result (run_state self.now.run (length self.now.readings)
            ≡ Waiting) }
    {
        if !self.state().is_waiting() || !is_same(self.settings.source, source) {
            return Err(Code::TriggerIgnored);
        }
        Ok(())
    }

    /// Reads the next channel of the scan that is under way, and returns true. If no scan is under
    /// way, returns false, and nothing changes.
    pub fn sample(&mut self) -> bool
        ensures stands { (acts : List ScanAct) → StandsFor self.old acts
            → StandsFor self.new (ScanAct.Sample ∷ acts) }
        ensures answer { (acts : List ScanAct) → StandsFor self.old acts
            → result ≡ scans (state_of (effective acts)) }
    {
        if !self.state().is_scanning() {
            return false;
        }
        let Some(run) = &self.run else {
            return false;
        };
        let channel = run.channel(self.readings.len());
        let reading = reading_in(self.settings.range, voltage(&self.inputs, channel));
        self.readings.push_reserved(reading);
        self.touched = Touched {
            operation: true,
            questionable: true,
            limit: true,
        };
        true
    }

    /// The state of the trigger system.
    pub fn state(&self) -> State
        ensures value { result ≡ run_state self.now.run (length self.now.readings) }
        ensures answer { (acts : List ScanAct) → StandsFor self.now acts
            → result ≡ state_of (effective acts) }
    {
        let Some(run) = &self.run else {
            return State::Idle;
        };
        let samples = self.readings.len();
        let channels = run.list.channels().len();
        if samples == usize::from(run.scans) * channels {
            State::Idle
        } else if samples == usize::from(run.triggers) * channels {
            State::Waiting
        } else {
            State::Scanning
        }
    }

    /// The newest reading of the measurement; `None` if there is no reading.
    pub(crate) fn last_reading(&self) -> Option<Reading>
        ensures { (acts : List ScanAct)
            → StandsFor self.now acts → result ≡ last_of (effective acts) }
    {
        self.readings.last().copied()
    }

    /// The condition words of the status registers, as they are now.
    pub fn conditions(&self) -> Conditions
        ensures operation { (acts : List ScanAct) → StandsFor self.now acts
            → result.operation ≡ operation (effective acts) }
        ensures questionable { (acts : List ScanAct) → StandsFor self.now acts
            → result.questionable ≡ questionable (effective acts) }
        ensures limit { (acts : List ScanAct) → StandsFor self.now acts
            → result.limit ≡ limit (effective acts) }
    {
        let state = self.state();
        let last = self.last_reading();
        let live = voltage(&self.inputs, self.settings.monitor);
        let outside = (live < self.settings.lower) | (self.settings.upper < live);
        let limits = self.settings.limits;
        Conditions {
            operation: mask_if(MEASURING, state.is_scanning())
                + mask_if(WAITING, state.is_waiting())
                + mask_if(ACQUIRING, !state.is_idle()),
            questionable: mask_if(OVERLOAD, is_overload(last)),
            limit: mask_if(BELOW, limits & is_below(last, self.settings.lower))
                + mask_if(ABOVE, limits & is_above(last, self.settings.upper))
                + mask_if(OUTSIDE, limits & outside),
        }
    }

    /// The readings of the last measurement, oldest first: scan by scan, and within a scan in the
    /// order of the scan list.
    ///
    /// # Errors
    /// [`Code::DataCorruptOrStale`] if the measurement isn't complete, was aborted, or doesn't
    /// exist.
    pub fn readings(&self) -> Result<&[Reading], Code>
        ensures { (acts : List ScanAct) → StandsFor self.now acts
            → MatchResult result (λ found. (completes (effective acts) ≡ true)
            × (found.now ≡ readings_of (effective acts)))
            (λ code. (completes (effective acts) ≡ false)
            × (code ≡ DataCorruptOrStale)) }
    {
        let Some(run) = &self.run else {
            return Err(Code::DataCorruptOrStale);
        };
        if run.is_complete(self.readings.len()) {
            Ok(self.readings_so_far())
        } else {
            Err(Code::DataCorruptOrStale)
        }
    }

    /// The readings of the current or last measurement, oldest first, even if they aren't complete.
    /// There are at most [`MOST_READINGS`], and none is a voltage beyond 1,000 V in magnitude.
    pub fn readings_so_far(&self) -> &[Reading]
        ensures answer { (acts : List ScanAct) → StandsFor self.now acts
            → result.now ≡ readings_of (effective acts) }
        ensures few { length result.now ≤ most_readings }
        ensures bounded { list_all is_bounded result.now ≡ true }
    {
        self.readings.as_slice()
    }
}

impl<A: Allocator> Layer for Scanner<A> {
    ghost use Rattle.sv_scan.specs.Stands.{StandsFor};
    ghost use Rattle.sv_scan.specs.Answered.{Gives};

    type Act = ScanAct;

    type Answer = ScanAnswer;

    ghost stands_for = { StandsFor };

    ghost gives = { Gives };

    fn act(&mut self, act: ScanAct) -> ScanAnswer {
        match act {
            ScanAct::Input(channel, microvolts) => self.input(channel, microvolts),
            ScanAct::Configure(setting) => return ScanAnswer::Answered(self.configure(setting)),
            ScanAct::Init => return ScanAnswer::Answered(self.init()),
            ScanAct::Abort => self.abort(),
            ScanAct::Reset => self.reset(),
            ScanAct::Trigger(source) => return ScanAnswer::Answered(self.trigger(source)),
            ScanAct::Sample => return ScanAnswer::Sampled(self.sample()),
        }
        ScanAnswer::Done
    }
}
