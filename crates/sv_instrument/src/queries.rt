//! Answering a query.

ghost use Rattle.std.specs.Prelude.{◌≡◌, ◌≤◌, List, [], vec_capacity, None};
ghost use Rattle.sv_exchange.specs.Contents.{IsUnitDue, next_of};
ghost use Rattle.sv_exchange.specs.Limits.{max_response};
ghost use Rattle.sv_layers.specs.Act.{Act};
ghost use Rattle.sv_layers.specs.Inside.Representation.{StandsFor as Stands};
ghost use Rattle.sv_instrument.specs.CommandEffect.{question_fault, after_query, Replies};
ghost use Rattle.sv_instrument.specs.Inside.Acted.{Counts, Behaves, Advances};
ghost use Rattle.sv_instrument.specs.QueryResponse.{Says, value_text};

use crate::readings::put_readings;
use crate::unit_effects::{carry_out, reply};
use std::alloc::Allocator;
use sv_bytes::append;
use sv_errors::Code;
use sv_header::{Question, SettingName};
use sv_layers::{Awaited, Change, Layers, RegisterChange, StatusChange};
use sv_value::printing::{put_channels, put_error, put_source, put_switch, put_voltage, put_whole};

/// Performs the query of the unit that is due: adds the answer to the answers of the message, or
/// reports an error if the query can't be answered.
pub(crate) fn ask<A: Allocator>(
    layers: &mut Layers<A>,
    answer: &mut Vec<u8, A>,
    question: Question,
) -> Option<Awaited>
    requires due { IsUnitDue (next_of layers.old.exchange) }
    requires room { max_response ≤ vec_capacity answer.old }
    ensures behaves { (start log : List Act) → Counts start layers.old log
        → Behaves (Replies (question_fault question log) question log) start layers.new result log }
    ensures advances { Advances layers.old layers.new result }
    ensures capacity { max_response ≤ vec_capacity answer.new }
{
    match refused(layers, question) {
        Some(code) => carry_out(layers, Change::Report(code)),
        None => {
            put_answer(answer, layers, question);
            take(layers, question);
            reply(layers, answer.as_slice());
            None
        }
    }
}

/// Returns the error of a query that can't be answered: -230 if the query fetches the readings, and
/// the measurement isn't complete, was aborted or doesn't exist. Returns `None` if the query can be
/// answered.
fn refused<A: Allocator>(layers: &Layers<A>, question: Question) -> Option<Code>
    ensures { (log : List Act) → Stands layers.now log → result ≡ question_fault question log }
{
    match question {
        Question::Readings => layers.scanner().readings().err(),
        _ => None,
    }
}

/// Applies the effect that a query has besides its answer, if it has one: removes an entry of the
/// error queue, or clears an event register.
fn take<A: Allocator>(layers: &mut Layers<A>, question: Question)
    ensures counts { (start log : List Act) → Counts start layers.old log
        → Counts start layers.new (after_query question log) }
    ensures exchange { layers.new.exchange ≡ layers.old.exchange }
{
    match question {
        Question::StandardEvents => layers.apply(Change::Status(StatusChange::ReadStandard)),
        Question::Error => layers.apply(Change::TakeEntry),
        Question::Events(name) => layers.apply(Change::Status(StatusChange::Register(
            name,
            RegisterChange::ReadEvents,
        ))),
        _ => (),
    }
}

/// Replaces all bytes of `out` by the answer to a query. The query of the readings requires a
/// complete measurement.
pub(crate) fn put_answer<A: Allocator>(out: &mut Vec<u8, A>, layers: &Layers<A>, question: Question)
    requires { max_response ≤ vec_capacity out.old }
    ensures says { (log : List Act) → Stands layers.now log → question_fault question log ≡ None
        → Says question log out.new.items }
    ensures capacity { max_response ≤ vec_capacity out.new }
{
    out.clear();
    let word = match question {
        Question::Identification => return append(out, b"SCANVOLT,SV32,0,1.0"),
        Question::SelfTest => return append(out, b"0"),
        Question::Version => return append(out, b"1999.0"),
        Question::StandardEvents => u16::from(layers.standard_events()),
        Question::StatusByte => u16::from(layers.status_byte()),
        Question::Error => return put_error(out, layers.errors().oldest().unwrap_or(Code::NoError)),
        Question::ErrorCount => u16::from(layers.errors().count()),
        Question::Events(name) => layers.events(name),
        Question::Condition(name) => layers.condition(name),
        Question::Readings => return put_readings(out, layers.scanner().readings_so_far()),
        Question::Value(name) => return put_value(out, layers, name),
    };
    put_whole(out, u32::from(word));
}

/// Writes the value of a setting to `out`, which must be empty.
fn put_value<A: Allocator>(out: &mut Vec<u8, A>, layers: &Layers<A>, name: SettingName)
    requires empty { out.old.items ≡ [] }
    requires room { max_response ≤ vec_capacity out.old }
    ensures text { (log : List Act) → Stands layers.now log
        → out.new.items ≡ value_text name log }
    ensures capacity { max_response ≤ vec_capacity out.new }
{
    let scanner = layers.scanner();
    let word = match name {
        SettingName::StandardEnable => u16::from(layers.standard_enable()),
        SettingName::ServiceEnable => u16::from(layers.service()),
        SettingName::Enable(register) => layers.enabled(register),
        SettingName::Rise(register) => layers.rise(register),
        SettingName::Fall(register) => layers.fall(register),
        SettingName::ScanList => return put_channels(out, scanner.list()),
        SettingName::Monitor => return put_channels(out, &[scanner.monitor()]),
        SettingName::Range => return put_voltage(out, scanner.range()),
        SettingName::UpperLimit => return put_voltage(out, scanner.upper()),
        SettingName::LowerLimit => return put_voltage(out, scanner.lower()),
        SettingName::Limits => return put_switch(out, scanner.limits()),
        SettingName::Source => return put_source(out, scanner.source()),
        SettingName::Count => u16::from(scanner.count()),
    };
    put_whole(out, u32::from(word));
}
