//! What is told of a server: all values at one moment.

ghost use Rattle.std.specs.Prelude.{◌≡◌, true};
ghost use Rattle.sv_explain.specs.Values.{flag, number_or_word, status_values, register_values, settings_values, share_value, measurement_values, message_values, call_value, conn_values, channel_values};

use crate::value::{Value, Word};
use arrayvec::ArrayVec;
use sv_scan::Progress;

/// The most links, and the most links that have service requests enabled.
pub const MOST_LINKS: usize = 32;

/// The most connections.
pub const CONNECTIONS: usize = 16;

/// What is told of the standard events and of the status byte (IEEE 488.2, 11.2 and 11.5).
#[derive(Clone, Copy, PartialEq, Eq)]
pub struct StatusShown {
    /// Whether an `*OPC` is pending.
    pub opc: bool,
    /// The enable of the standard events.
    pub enable: u8,
    /// The standard events.
    pub events: u8,
    /// The enable of service requests.
    pub service: u8,
    /// The status byte, with MSS in bit 6.
    pub byte: u8,
    /// Whether service is requested.
    pub request: bool,
}

/// What is told of a status register (SCPI-1999, volume 1, chapter 9).
#[derive(Clone, Copy, PartialEq, Eq)]
pub struct RegisterShown {
    /// The enable.
    pub enable: u16,
    /// The filter of bits that rise.
    pub rise: u16,
    /// The filter of bits that fall.
    pub fall: u16,
    /// The condition.
    pub condition: u16,
    /// The events.
    pub events: u16,
}

/// What is told of the settings, without the scan list.
#[derive(Clone, Copy)]
pub struct SettingsShown {
    /// The source of triggers.
    pub source: Word,
    /// The number of scans.
    pub count: u8,
    /// The range, in microvolts.
    pub range: i64,
    /// The channel that is monitored.
    pub monitor: u8,
    /// The upper limit, in microvolts.
    pub upper: i64,
    /// The lower limit, in microvolts.
    pub lower: i64,
    /// Whether the limits are on.
    pub limits: bool,
}

/// What is told of the measurement.
#[derive(Clone, Copy)]
pub struct MeasurementShown {
    /// The state of the trigger system.
    pub state: Word,
    /// How far the measurement under way is; `None` if no measurement is under way.
    pub progress: Option<Progress>,
    /// How many readings there are.
    pub readings: u16,
    /// The newest reading, or that there is none.
    pub newest: Value,
}

/// What is told of message exchange, and of the errors that the queue had no place for.
#[derive(Clone, Copy, PartialEq, Eq)]
pub struct MessageShown {
    /// Bytes of the message that hasn't ended; `None` if it has ended, or is too long.
    pub text: Option<u32>,
    /// What the held unit will answer.
    pub held: Word,
    /// Bytes of the answers of the current message.
    pub answers: u32,
    /// Bytes of the response.
    pub response: u32,
    /// How many errors were lost; 4,294,967,295 also stands for more.
    pub lost: u32,
}

/// A link in a list.
#[derive(Clone, Copy, Default)]
pub struct Listed {
    /// The number of the link.
    pub lid: u32,
    /// The connection of the link.
    pub conn: u8,
}

/// What is told of a suspended call.
#[derive(Clone, Copy, PartialEq, Eq)]
pub struct CallShown {
    /// What it waits for.
    pub wait: Word,
    /// The link that it names; `None` if it names no link.
    pub lid: Option<u32>,
    /// The time of the clock at which it times out, in milliseconds; `None` if it never does.
    pub deadline: Option<u64>,
}

/// What is told of a connection and its interrupt channel.
#[derive(Clone, Copy)]
pub struct ConnShown {
    /// Its role.
    pub role: Word,
    /// Whether it is at fault.
    pub faulted: bool,
    /// Its suspended call.
    pub call: Option<CallShown>,
    /// How many bytes wait to be sent.
    pub output: u32,
    /// Whether its interrupt channel is open.
    pub has_channel: bool,
    /// How many bytes wait to be sent on the interrupt channel.
    pub requests: u32,
}

/// What is told of the links.
#[derive(Drop)]
pub struct LinksShown {
    /// The links, by rising number.
    pub links: ArrayVec<Listed, MOST_LINKS>,
    /// The link that holds the lock; `None` if the lock is free.
    pub lock: Option<u32>,
    /// The links that have service requests enabled, by rising number.
    pub asking: ArrayVec<Listed, MOST_LINKS>,
}

/// What is told of the scanner.
#[derive(Drop)]
pub struct ScannerShown {
    /// The settings, without the scan list.
    pub settings: SettingsShown,
    /// The scan list.
    pub list: ArrayVec<i16, 128>,
    /// The measurement.
    pub measurement: MeasurementShown,
}

/// What is told of message exchange and of the error queue.
#[derive(Drop)]
pub struct ExchangeShown {
    /// Message exchange, and lost errors.
    pub message: MessageShown,
    /// The numbers of the errors in the queue, the oldest first.
    pub errors: ArrayVec<i16, 64>,
}

/// What is told of the status registers and of the status byte.
#[derive(Clone, Copy)]
pub struct StatusesShown {
    /// The limit register.
    pub limit: RegisterShown,
    /// The questionable register.
    pub questionable: RegisterShown,
    /// The operation register.
    pub operation: RegisterShown,
    /// The standard events and the status byte.
    pub standard: StatusShown,
}

/// What is told of a server.
#[derive(Drop)]
pub struct Shown {
    /// The connections, by their numbers; those that are left out were never opened.
    pub conns: ArrayVec<ConnShown, CONNECTIONS>,
    /// The links and the lock.
    pub links: LinksShown,
    /// The scanner.
    pub scanner: ScannerShown,
    /// Message exchange and the errors.
    pub exchange: ExchangeShown,
    /// The status registers and the status byte.
    pub statuses: StatusesShown,
}

/// What is told of a connection that was never opened.
pub const NEVER_OPENED: ConnShown = ConnShown {
    role: Word::Closed,
    faulted: false,
    call: None,
    output: 0,
    has_channel: false,
    requests: 0,
};

impl Default for ConnShown {
    fn default() -> ConnShown {
        NEVER_OPENED
    }
}

/// 1 for true, 0 for false.
#[inline(always)]
fn flag(on: bool) -> Value
    ensures { result ≡ flag on }
{
    Value::Number(u64::from(on))
}

/// A number; or this word.
#[inline(always)]
pub(crate) fn number_or_word(word: Word, number: Option<u32>) -> Value
    ensures { result ≡ number_or_word word number }
{
    match number {
        Some(number) => Value::Number(u64::from(number)),
        None => Value::Word(word),
    }
}

/// So many of so many; `none` without a measurement.
#[inline(always)]
fn share_value(share: Option<(u8, u8)>) -> Value
    ensures { result ≡ share_value share }
{
    match share {
        Some((done, whole)) => Value::Share(done, whole),
        None => Value::Word(Word::None),
    }
}

/// A suspended call; `none` if there is none.
#[inline(always)]
fn call_value(call: Option<CallShown>) -> Value
    ensures { result ≡ call_value call }
{
    match call {
        Some(call) => Value::Call(call.wait, call.lid.map(u64::from), call.deadline),
        None => Value::Word(Word::None),
    }
}

impl StatusShown {
    /// The values, in the order in which they are printed.
    #[inline(always)]
    pub(crate) fn values(self) -> [Value; 6]
        ensures { result ≡ status_values self }
    {
        [
            flag(self.opc),
            Value::Number(u64::from(self.enable)),
            Value::Number(u64::from(self.events)),
            Value::Number(u64::from(self.service)),
            Value::Number(u64::from(self.byte)),
            flag(self.request),
        ]
    }
}

impl RegisterShown {
    /// The values, in the order in which they are printed.
    #[inline(always)]
    pub(crate) fn values(self) -> [Value; 5]
        ensures { result ≡ register_values self }
    {
        [
            Value::Number(u64::from(self.enable)),
            Value::Number(u64::from(self.rise)),
            Value::Number(u64::from(self.fall)),
            Value::Number(u64::from(self.condition)),
            Value::Number(u64::from(self.events)),
        ]
    }
}

impl SettingsShown {
    /// Whether nothing changed.
    pub(crate) fn is_same(self, other: SettingsShown) -> bool
        ensures { result ≡ true → self ≡ other }
    {
        if self.source != other.source || self.count != other.count {
            return false;
        }
        if self.range != other.range || self.monitor != other.monitor {
            return false;
        }
        if self.upper != other.upper || self.lower != other.lower {
            return false;
        }
        self.limits == other.limits
    }

    /// The values, in the order in which they are printed.
    #[inline(always)]
    pub(crate) fn values(self) -> [Value; 7]
        ensures { result ≡ settings_values self }
    {
        [
            Value::Word(self.source),
            Value::Number(u64::from(self.count)),
            Value::Voltage(self.range),
            Value::Number(u64::from(self.monitor)),
            Value::Voltage(self.upper),
            Value::Voltage(self.lower),
            flag(self.limits),
        ]
    }
}

impl MeasurementShown {
    /// Whether nothing changed.
    pub(crate) fn is_same(self, other: MeasurementShown) -> bool
        ensures { result ≡ true → self ≡ other }
    {
        if self.state != other.state || self.readings != other.readings {
            return false;
        }
        is_same_progress(self.progress, other.progress) && self.newest.is_same(other.newest)
    }

    /// The values, in the order in which they are printed.
    #[inline(always)]
    pub(crate) fn values(self) -> [Value; 5]
        ensures { result ≡ measurement_values self }
    {
        [
            Value::Word(self.state),
            share_value(self.progress.map(|so_far| (so_far.scan, so_far.scans))),
            share_value(self.progress.map(|so_far| (so_far.place, so_far.places))),
            Value::Number(u64::from(self.readings)),
            self.newest,
        ]
    }
}

impl MessageShown {
    /// The values, in the order in which they are printed.
    #[inline(always)]
    pub(crate) fn values(self) -> [Value; 5]
        ensures { result ≡ message_values self }
    {
        [
            number_or_word(Word::Ended, self.text),
            Value::Word(self.held),
            Value::Number(u64::from(self.answers)),
            Value::Number(u64::from(self.response)),
            Value::Number(u64::from(self.lost)),
        ]
    }
}

/// Whether two measurements are as far as each other.
fn is_same_progress(old: Option<Progress>, new: Option<Progress>) -> bool
    ensures { result ≡ true → old ≡ new }
{
    match (old, new) {
        (None, None) => true,
        (Some(old), Some(new)) => old == new,
        (None, Some(_)) | (Some(_), None) => false,
    }
}

/// Whether two suspended calls are the same.
fn is_same_call(old: Option<CallShown>, new: Option<CallShown>) -> bool
    ensures { result ≡ true → old ≡ new }
{
    match (old, new) {
        (None, None) => true,
        (Some(old), Some(new)) => old == new,
        (None, Some(_)) | (Some(_), None) => false,
    }
}

impl ConnShown {
    /// Whether nothing changed.
    pub(crate) fn is_same(self, other: ConnShown) -> bool
        ensures { result ≡ true → self ≡ other }
    {
        if self.role != other.role || !is_same_call(self.call, other.call) {
            return false;
        }
        if self.faulted != other.faulted || self.output != other.output {
            return false;
        }
        self.has_channel == other.has_channel && self.requests == other.requests
    }

    /// The values of the connection, in the order in which they are printed.
    #[inline(always)]
    pub(crate) fn conn(self) -> [Value; 4]
        ensures { result ≡ conn_values self }
    {
        [
            Value::Word(self.role),
            flag(self.faulted),
            call_value(self.call),
            Value::Number(u64::from(self.output)),
        ]
    }

    /// The values of the interrupt channel, in the order in which they are printed.
    #[inline(always)]
    pub(crate) fn channel(self) -> [Value; 2]
        ensures { result ≡ channel_values self }
    {
        [
            flag(self.has_channel),
            Value::Number(u64::from(self.requests)),
        ]
    }
}
