//! What is told of a server.

ghost use Rattle.std.specs.Prelude.{◌≡◌, ◌<◌, ℕ, List, map, pos, slice_index_or, MatchOption, None, Some};
ghost use Rattle.sv_errors.specs.declared.error_queue.QueueAct.{QueueAct};
ghost use Rattle.sv_errors.specs.Code.{number_of};
ghost use Rattle.sv_errors.specs.ErrorQueue.{queue_codes, StandsFor as Queues};
ghost use Rattle.sv_scan.specs.declared.acts.ScanAct.{ScanAct};
ghost use Rattle.sv_scan.specs.Counted.{effective};
ghost use Rattle.sv_scan.specs.Setting.{scan_list};
ghost use Rattle.sv_scan.specs.Stands.{StandsFor as Scans};
ghost use Rattle.sv_layers.specs.Act.{Act as InstrumentAct};
ghost use Rattle.sv_layers.specs.Inside.Representation.{AllRead};
ghost use Rattle.sv_instrument.specs.Representation.{StandsFor};
ghost use Rattle.sv_history.specs.declared.event.Config.{Config};
ghost use Rattle.sv_history.specs.Act.{Act, device_acts, instrument_acts};
ghost use Rattle.sv_server.specs.Server.State.{Represents};
ghost use Rattle.sv_server.specs.Explain.Inside.Unlisted.{IsUnlisted};
ghost use Rattle.sv_explain.specs.Shown.{IsStatus, IsRegister, source_word, settings_of, state_word, measurement_of, newest_value, held_word, message_of, wait_word, call_of, role_word, IsConn, never_opened, AreLinks, IsScanner, IsExchange, AreStatuses, IsShown};

use crate::conn::Conn;
use crate::server::Server;
use arrayvec::ArrayVec;
use std::alloc::Allocator;
use sv_errors::{ErrorQueue, Source};
use sv_explain::{
    ExchangeShown, LinksShown, MeasurementShown, MessageShown, RegisterShown, ScannerShown,
    SettingsShown, Shown, StatusShown, StatusesShown, Value, Word,
};
use sv_history::{Port, Role};
use sv_instrument::Instrument;
use sv_layers::{Awaited, Layers};
use sv_links::{Entry, Wait};
use sv_scan::{Reading, Scanner, State, Taken};
use sv_status::RegisterName;

/// What is told of the standard events and the status byte.
fn status_shown<A: Allocator>(layers: &Layers<A>) -> StatusShown
    ensures { (log : List InstrumentAct) → AllRead layers.now log → IsStatus result log }
{
    StatusShown {
        opc: layers.has_opc(),
        enable: layers.standard_enable(),
        events: layers.standard_events(),
        service: layers.service(),
        byte: layers.status_byte(),
        request: layers.has_request(),
    }
}

/// What is told of a status register.
fn register_shown<A: Allocator>(layers: &Layers<A>, name: RegisterName) -> RegisterShown
    ensures { (log : List InstrumentAct) → AllRead layers.now log → IsRegister name result log }
{
    RegisterShown {
        enable: layers.enabled(name),
        rise: layers.rise(name),
        fall: layers.fall(name),
        condition: layers.condition(name),
        events: layers.events(name),
    }
}

/// The word of a source of triggers.
fn source_word(source: Source) -> Word
    ensures { result ≡ source_word source }
{
    match source {
        Source::Immediate => Word::Immediate,
        Source::Bus => Word::Bus,
        Source::External => Word::External,
    }
}

/// What is told of the settings, without the scan list.
pub(crate) fn settings_shown<A: Allocator>(scanner: &Scanner<A>) -> SettingsShown
    ensures { (acts : List ScanAct) → Scans scanner.now acts
        → result ≡ settings_of (effective acts) }
{
    SettingsShown {
        source: source_word(scanner.source()),
        count: scanner.count(),
        range: scanner.range(),
        monitor: scanner.monitor(),
        upper: scanner.upper(),
        lower: scanner.lower(),
        limits: scanner.limits(),
    }
}

/// Makes `found` the channels of the scan list.
pub(crate) fn list_channels<A: Allocator>(scanner: &Scanner<A>, found: &mut ArrayVec<i16, 128>)
    ensures { (acts : List ScanAct) → Scans scanner.now acts
        → found.new.items ≡ map pos (scan_list (effective acts)) }
{
    found.clear();
    for channel in scanner.list() {
        found.push(i16::from(*channel));
    }
}

/// The word of a state of the trigger system.
fn state_word(state: State) -> Word
    ensures { result ≡ state_word state }
{
    match state {
        State::Idle => Word::Idle,
        State::Waiting => Word::Waiting,
        State::Scanning => Word::Scanning,
    }
}

/// The newest reading; its number is how many readings there are.
fn newest_value(number: u16, newest: Option<Taken>) -> Value
    ensures { result ≡ newest_value number newest }
{
    match newest {
        Some(taken) => match taken.reading {
            Reading::Value(microvolts) => Value::Reading(number, taken.channel, microvolts),
            Reading::Over => Value::Overload(number, taken.channel, Word::Over),
            Reading::Under => Value::Overload(number, taken.channel, Word::Under),
        },
        None => Value::Word(Word::None),
    }
}

/// What is told of the measurement.
pub(crate) fn measurement_shown<A: Allocator>(scanner: &Scanner<A>) -> MeasurementShown
    ensures { (acts : List ScanAct) → Scans scanner.now acts
        → result ≡ measurement_of (effective acts) }
{
    let readings = scanner.readings_so_far().len() as u16;
    MeasurementShown {
        state: state_word(scanner.state()),
        progress: scanner.progress(),
        readings,
        newest: newest_value(readings, scanner.newest_reading()),
    }
}

/// The word of what a held unit will answer.
fn held_word(held: Option<Awaited>) -> Word
    ensures { result ≡ held_word held }
{
    match held {
        None => Word::None,
        Some(Awaited::Nothing) => Word::Nothing,
        Some(Awaited::One) => Word::One,
        Some(Awaited::Readings) => Word::Readings,
    }
}

/// What is told of message exchange.
pub(crate) fn message_shown<A: Allocator>(instrument: &Instrument<A>) -> MessageShown
    ensures { (log : List InstrumentAct) → StandsFor instrument.now log
        → result ≡ message_of log }
{
    let layers = instrument.layers();
    let exchange = layers.exchange();
    MessageShown {
        text: exchange.unended(),
        held: held_word(instrument.held()),
        answers: exchange.gathered(),
        response: exchange.left(),
        lost: layers.errors().lost(),
    }
}

/// Makes `found` the numbers of the errors in a queue, the oldest first.
pub(crate) fn list_errors<A: Allocator>(queue: &ErrorQueue<A>, found: &mut ArrayVec<i16, 64>)
    ensures { (acts : List QueueAct) → Queues queue.now acts
        → found.new.items ≡ map number_of (queue_codes acts) }
{
    found.clear();
    for index in 0..queue.count() {
        match queue.entry(index) {
            Some(code) => found.push(code.number()),
            None => return,
        }
    }
}

impl<A: Allocator> Server<A> {
    /// What is told of the server, with empty lists.
    #[inline(always)]
    pub(crate) fn unlisted(&self) -> Shown
        ensures { (config : Config) (log : List Act) → Represents self.now config log
            → IsUnlisted result log }
    {
        let instrument = self.device.instrument();
        let scanner = instrument.layers().scanner();
        Shown {
            conns: ArrayVec::new(),
            links: LinksShown {
                links: ArrayVec::new(),
                lock: self.device.lock_holder(),
                asking: ArrayVec::new(),
            },
            scanner: ScannerShown {
                settings: settings_shown(scanner),
                list: ArrayVec::new(),
                measurement: measurement_shown(scanner),
            },
            exchange: ExchangeShown {
                message: message_shown(instrument),
                errors: ArrayVec::new(),
            },
            statuses: self.statuses_shown(),
        }
    }

    /// Fills the lists of what is told of the server.
    pub(crate) fn list_all(&self, shown: &mut Shown)
        ensures { (config : Config) (log : List Act) → Represents self.now config log
            → IsUnlisted shown.old log → IsShown shown.new log }
    {
        let layers = self.device.instrument().layers();
        self.list_conns(&mut shown.conns);
        self.device.list_links(&mut shown.links.links);
        self.device.list_asking_links(&mut shown.links.asking);
        list_channels(layers.scanner(), &mut shown.scanner.list);
        list_errors(layers.errors(), &mut shown.exchange.errors);
    }

    /// What is told of the status registers and of the status byte.
    #[inline(always)]
    pub(crate) fn statuses_shown(&self) -> StatusesShown
        ensures { (config : Config) (log : List Act) → Represents self.now config log
            → AreStatuses result (instrument_acts (device_acts log)) }
    {
        let layers = self.device.instrument().layers();
        StatusesShown {
            limit: register_shown(layers, RegisterName::Limit),
            questionable: register_shown(layers, RegisterName::Questionable),
            operation: register_shown(layers, RegisterName::Operation),
            standard: status_shown(layers),
        }
    }
}
