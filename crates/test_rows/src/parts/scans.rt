//! Performs the acts of a test's lines on the scanner, and prints the answers.

use crate::parts::line::put;
use crate::words::{bad, cut, value_of};
use arrayvec::ArrayVec;
use std::io;
use sv_errors::Layer;
use sv_scan::{ScanAct, ScanList, Scanner, Setting, Source};

/// Prints the scanner's answer to a question or an act.
pub(crate) fn put_scan(out: &mut String, scanner: &mut Scanner, text: &str) -> io::Result<()> {
    match text {
        "state" => put(out, scanner.state()),
        "readings" => put(out, scanner.readings()),
        "may_read" => put(out, scanner.may_read()),
        "conditions" => {
            let words = scanner.conditions();
            put(out, words.operation)?;
            put(out, words.questionable)?;
            put(out, words.limit)
        }
        _ => put_act(out, scanner, text),
    }
}

/// Prints the scanner's answer to the act that a word and its value describe.
fn put_act(out: &mut String, scanner: &mut Scanner, text: &str) -> io::Result<()> {
    let act = match cut(text) {
        ("init", "") => ScanAct::Init,
        ("abort", "") => ScanAct::Abort,
        ("reset", "") => ScanAct::Reset,
        ("sample", "") => ScanAct::Sample,
        ("trigger", source) => ScanAct::Trigger(source_of(source)?),
        ("input", words) => {
            let (channel, microvolts) = cut(words);
            ScanAct::Input(value_of(channel)?, value_of(microvolts)?)
        }
        (name, value) => ScanAct::Configure(setting_of(name, value)?),
    };
    put(out, scanner.act(act))
}

/// The setting that a name and its value describe.
fn setting_of(name: &str, value: &str) -> io::Result<Setting> {
    match name {
        "list" => Ok(Setting::List(list_of(value)?)),
        "monitor" => Ok(Setting::Monitor(value_of(value)?)),
        "range" => Ok(Setting::Range(value_of(value)?)),
        "upper" => Ok(Setting::Upper(value_of(value)?)),
        "lower" => Ok(Setting::Lower(value_of(value)?)),
        "limits" => Ok(Setting::Limits(value_of(value)?)),
        "source" => Ok(Setting::Source(source_of(value)?)),
        "count" => Ok(Setting::Count(value_of(value)?)),
        _ => Err(bad()),
    }
}

/// The trigger source that has this name.
fn source_of(name: &str) -> io::Result<Source> {
    match name {
        "immediate" => Ok(Source::Immediate),
        "bus" => Ok(Source::Bus),
        "external" => Ok(Source::External),
        _ => Err(bad()),
    }
}

/// The list of channels that a text names, with commas between the channels.
fn list_of(text: &str) -> io::Result<ScanList> {
    let mut channels = ArrayVec::new();
    for channel in text.split(',') {
        if channels.try_push(value_of(channel)?).is_err() {
            return Err(bad());
        }
    }
    Ok(ScanList::new(channels))
}
