//! The lines of everything that changed between two moments.

ghost use Rattle.std.specs.Prelude.{◌≡◌, [], ◌∷◌, codes};
ghost use Rattle.sv_print.specs.Printed.{Prints};
ghost use Rattle.sv_explain.specs.declared.value.Word.TheVariants.{None as none};
ghost use Rattle.sv_explain.specs.Lines.{lines_of};
ghost use Rattle.sv_explain.specs.Values.{channel_values, conn_values, measurement_values, message_values, number_or_word, settings_values, status_values};
ghost use Rattle.sv_explain.specs.Changes.{all_links_lines, conn_lines, exchange_lines, register_lines, scanner_lines, status_lines};
ghost use Rattle.sv_explain.specs.Inside.Names.{owner_text};

use crate::lines::{Owner, put_numbers, put_values};
use crate::links::{ListOf, put_links};
use crate::shown::{
    ConnShown, ExchangeShown, LinksShown, Listed, MOST_LINKS, MeasurementShown, MessageShown,
    RegisterShown, ScannerShown, SettingsShown, StatusShown, StatusesShown, number_or_word,
};
use crate::value::Word;
use arrayvec::ArrayVec;
use std::io::Write;

/// The names of the values of `Shown::status`.
const STATUS: [&[u8]; 6] = [b"opc", b"ese", b"esr", b"sre", b"stb", b"rqs"];

/// The names of the values of a status register.
const REGISTER: [&[u8]; 5] = [b"enable", b"ptr", b"ntr", b"cond", b"event"];

/// The names of the settings.
const SETTINGS: [&[u8]; 7] = [
    b"source", b"count", b"range", b"monitor", b"upper", b"lower", b"limits",
];

/// The names of the values of a measurement.
const MEASUREMENT: [&[u8]; 5] = [b"state", b"scan", b"place", b"readings", b"reading"];

/// The names of the values of message exchange.
const MESSAGE: [&[u8]; 5] = [b"text", b"held", b"answers", b"response", b"lost"];

/// The names of the values of a connection.
const CONN: [&[u8]; 4] = [b"role", b"faulted", b"wait", b"output"];

/// The names of the values of an interrupt channel.
const CHANNEL: [&[u8]; 2] = [b"open", b"output"];

/// Writes the lines of what changed of a connection and of its interrupt channel.
pub fn put_conn<W: Write>(
    writer: &mut W,
    failed: &mut bool,
    conn: u8,
    old: ConnShown,
    new: ConnShown,
)
    ensures { Prints (W.contents writer.old) failed.old (W.contents writer.new) failed.new
        (conn_lines conn old new) }
{
    if !old.is_same(new) {
        put_both(writer, failed, conn, old, new)
    }
}

/// Writes the lines of a connection, and of its interrupt channel.
fn put_both<W: Write>(writer: &mut W, failed: &mut bool, conn: u8, old: ConnShown, new: ConnShown)
    ensures { Prints (W.contents writer.old) failed.old (W.contents writer.new) failed.new
        (conn_lines conn old new) }
{
    put_own(writer, failed, Owner::Conn(conn), old, new);
    put_channel(writer, failed, Owner::Channel(conn), old, new)
}

/// Writes the lines of a connection.
fn put_own<W: Write>(
    writer: &mut W,
    failed: &mut bool,
    owner: Owner,
    old: ConnShown,
    new: ConnShown,
)
    ensures { Prints (W.contents writer.old) failed.old (W.contents writer.new) failed.new
        (lines_of (owner_text owner)
        (codes "role" ∷ codes "faulted" ∷ codes "wait" ∷ codes "output" ∷ [])
        (conn_values old) (conn_values new)) }
{
    let (before, now) = (old.conn(), new.conn());
    put_values(writer, failed, owner, &CONN, &before, &now)
}

/// Writes the lines of an interrupt channel.
fn put_channel<W: Write>(
    writer: &mut W,
    failed: &mut bool,
    owner: Owner,
    old: ConnShown,
    new: ConnShown,
)
    ensures { Prints (W.contents writer.old) failed.old (W.contents writer.new) failed.new
        (lines_of (owner_text owner) (codes "open" ∷ codes "output" ∷ [])
        (channel_values old) (channel_values new)) }
{
    let (before, now) = (old.channel(), new.channel());
    put_values(writer, failed, owner, &CHANNEL, &before, &now)
}

/// Writes the lines of the settings that changed.
fn put_settings<W: Write>(writer: &mut W, failed: &mut bool, old: SettingsShown, new: SettingsShown)
    ensures { Prints (W.contents writer.old) failed.old (W.contents writer.new) failed.new
        (lines_of [] (codes "source" ∷ codes "count" ∷ codes "range" ∷ codes "monitor"
        ∷ codes "upper" ∷ codes "lower" ∷ codes "limits" ∷ [])
        (settings_values old) (settings_values new)) }
{
    if !old.is_same(new) {
        let (before, now) = (old.values(), new.values());
        put_values(writer, failed, Owner::Instrument, &SETTINGS, &before, &now)
    }
}

/// Writes the lines of what changed of the measurement.
fn put_measurement<W: Write>(
    writer: &mut W,
    failed: &mut bool,
    old: MeasurementShown,
    new: MeasurementShown,
)
    ensures { Prints (W.contents writer.old) failed.old (W.contents writer.new) failed.new
        (lines_of [] (codes "state" ∷ codes "scan" ∷ codes "place" ∷ codes "readings"
        ∷ codes "reading" ∷ [])
        (measurement_values old) (measurement_values new)) }
{
    if !old.is_same(new) {
        let (before, now) = (old.values(), new.values());
        put_values(
            writer,
            failed,
            Owner::Instrument,
            &MEASUREMENT,
            &before,
            &now,
        )
    }
}

/// Writes the lines of what changed of message exchange.
fn put_message<W: Write>(writer: &mut W, failed: &mut bool, old: MessageShown, new: MessageShown)
    ensures { Prints (W.contents writer.old) failed.old (W.contents writer.new) failed.new
        (lines_of [] (codes "text" ∷ codes "held" ∷ codes "answers" ∷ codes "response"
        ∷ codes "lost" ∷ [])
        (message_values old) (message_values new)) }
{
    if old != new {
        let (before, now) = (old.values(), new.values());
        put_values(writer, failed, Owner::Instrument, &MESSAGE, &before, &now)
    }
}

/// Writes the lines of what changed of a status register.
#[inline(always)]
fn put_register<W: Write>(
    writer: &mut W,
    failed: &mut bool,
    owner: Owner,
    old: RegisterShown,
    new: RegisterShown,
)
    ensures { Prints (W.contents writer.old) failed.old (W.contents writer.new) failed.new
        (register_lines (owner_text owner) old new) }
{
    if old != new {
        let (before, now) = (old.values(), new.values());
        put_values(writer, failed, owner, &REGISTER, &before, &now)
    }
}

/// Writes the lines of what changed of the standard status.
fn put_status<W: Write>(writer: &mut W, failed: &mut bool, old: StatusShown, new: StatusShown)
    ensures { Prints (W.contents writer.old) failed.old (W.contents writer.new) failed.new
        (lines_of [] (codes "opc" ∷ codes "ese" ∷ codes "esr" ∷ codes "sre" ∷ codes "stb"
        ∷ codes "rqs" ∷ [])
        (status_values old) (status_values new)) }
{
    if old != new {
        let (before, now) = (old.values(), new.values());
        put_values(writer, failed, Owner::Instrument, &STATUS, &before, &now)
    }
}

/// Writes the line of the lock, if another link holds it, or none.
fn put_lock<W: Write>(writer: &mut W, failed: &mut bool, old: Option<u32>, new: Option<u32>)
    ensures { Prints (W.contents writer.old) failed.old (W.contents writer.new) failed.new
        (lines_of [] (codes "lock" ∷ []) (number_or_word none old ∷ [])
        (number_or_word none new ∷ [])) }
{
    if old != new {
        let before = [number_or_word(Word::None, old)];
        let now = [number_or_word(Word::None, new)];
        put_values(writer, failed, Owner::Instrument, &[b"lock"], &before, &now)
    }
}

impl LinksShown {
    /// Writes the lines of what changed of the links, of the lock, and of the links that have
    /// service requests enabled; and keeps what is new.
    pub fn update<W: Write>(
        &mut self,
        links: ArrayVec<Listed, MOST_LINKS>,
        lock: Option<u32>,
        asking: ArrayVec<Listed, MOST_LINKS>,
        writer: &mut W,
        failed: &mut bool,
    )
        ensures value { self.new ≡ record { links = links; lock = lock; asking = asking } }
        ensures lines { Prints (W.contents writer.old) failed.old
            (W.contents writer.new) failed.new (all_links_lines self.old self.new) }
    {
        let (old, new) = (self.links.as_slice(), links.as_slice());
        put_links(writer, failed, ListOf::Links, old, new);
        put_lock(writer, failed, self.lock, lock);
        let (old, new) = (self.asking.as_slice(), asking.as_slice());
        put_links(writer, failed, ListOf::Asking, old, new);
        self.links = links;
        self.lock = lock;
        self.asking = asking;
    }
}

impl ScannerShown {
    /// Writes the lines of what changed of the scanner: its settings, its scan list, and its
    /// measurement; and keeps what is new.
    pub fn update<W: Write>(
        &mut self,
        settings: SettingsShown,
        list: ArrayVec<i16, 128>,
        measurement: MeasurementShown,
        writer: &mut W,
        failed: &mut bool,
    )
        ensures value { self.new
            ≡ record { settings = settings; list = list; measurement = measurement } }
        ensures lines { Prints (W.contents writer.old) failed.old
            (W.contents writer.new) failed.new (scanner_lines self.old self.new) }
    {
        put_settings(writer, failed, self.settings, settings);
        let (old, new) = (self.list.as_slice(), list.as_slice());
        put_numbers(writer, failed, b"list", old, new);
        put_measurement(writer, failed, self.measurement, measurement);
        self.settings = settings;
        self.list = list;
        self.measurement = measurement;
    }
}

impl ExchangeShown {
    /// Writes the lines of what changed of message exchange and of the errors; and keeps what is
    /// new.
    pub fn update<W: Write>(
        &mut self,
        message: MessageShown,
        errors: ArrayVec<i16, 64>,
        writer: &mut W,
        failed: &mut bool,
    )
        ensures value { self.new ≡ record { message = message; errors = errors } }
        ensures lines { Prints (W.contents writer.old) failed.old
            (W.contents writer.new) failed.new (exchange_lines self.old self.new) }
    {
        put_message(writer, failed, self.message, message);
        let (old, new) = (self.errors.as_slice(), errors.as_slice());
        put_numbers(writer, failed, b"errors", old, new);
        self.message = message;
        self.errors = errors;
    }
}

/// Writes the lines of what changed of the limit, questionable and operation registers, and of the
/// standard status.
pub fn put_statuses<W: Write>(
    writer: &mut W,
    failed: &mut bool,
    old: StatusesShown,
    new: StatusesShown,
)
    ensures { Prints (W.contents writer.old) failed.old (W.contents writer.new) failed.new
        (status_lines old new) }
{
    put_register(writer, failed, Owner::Limit, old.limit, new.limit);
    put_register(
        writer,
        failed,
        Owner::Questionable,
        old.questionable,
        new.questionable,
    );
    put_register(
        writer,
        failed,
        Owner::Operation,
        old.operation,
        new.operation,
    );
    put_status(writer, failed, old.standard, new.standard)
}
