//! The options of `serve`, and the meaning of their values.

ghost use Rattle.std.specs.Prelude.{◌≡◌, ◌≤◌, ◌==◌, false, IfOk, slice_index, codes};
ghost use Rattle.clap.specs.Words.{app_of};
ghost use Rattle.clap.specs.Matches.{found_of, first_value};
ghost use Rattle.clap.specs.Walk.{rule_of};
ghost use Rattle.sv_net.specs.Words.{option, optional, replay_command, serve_command, IsCount, IfGiven, IfBoth, HasPorts, ServesBy, Finds};

use crate::words::Serve;
use clap::{Arg, ArgAction, ArgMatches, Command};
use std::alloc::{AllocError, Global};
use sv_replay::Ports;

/// The port of the core channel, and that of the abort channel, of a replay without options.
const CORE: u16 = 4096;

const ABORT: u16 = 4097;

/// Returns a required option that has one value.
fn option<'a>(alloc: Global, name: &'a str) -> Arg<'a>
    ensures rule { rule_of result ≡ option name.now }
    ensures local { result.global ≡ false }
{
    Arg::new(alloc, name)
        .long(name)
        .required(true)
        .action(ArgAction::Set)
}

/// Returns an option that has one value and can be left out.
fn optional<'a>(alloc: Global, name: &'a str) -> Arg<'a>
    ensures rule { rule_of result ≡ optional name.now }
    ensures local { result.global ≡ false }
{
    Arg::new(alloc, name).long(name).action(ArgAction::Set)
}

/// Makes clap's command `replay`, with its two options. It is also the command `explain`.
pub(crate) fn replay_command<'a>(alloc: Global) -> Result<Command<'a>, AllocError>
    ensures { IfOk result (λ command. app_of command ≡ replay_command) }
{
    let args = vec![in alloc; optional(alloc, "core"), optional(alloc, "abort")]?;
    Command::new(alloc, "replay").args(args)
}

/// Makes clap's command `serve`, with its seven options.
pub(crate) fn serve_command<'a>(alloc: Global) -> Result<Command<'a>, AllocError>
    ensures { IfOk result (λ command. app_of command ≡ serve_command) }
{
    let args = vec![in alloc;
        option(alloc, "core"),
        option(alloc, "abort"),
        option(alloc, "portmap"),
        option(alloc, "scenario"),
        option(alloc, "sweeps"),
        optional(alloc, "record"),
        optional(alloc, "control"),
    ]?;
    Command::new(alloc, "serve").args(args)
}

/// Whether a word begins with a plus. A number on the command line must not begin with a plus.
fn has_plus(word: &str) -> bool
    ensures { result ≡ (slice_index word.now 0 == 43) }
{
    matches!(word.as_bytes(), [b'+', ..])
}

/// Returns the number that a word of 1 to 10 digits stands for, if the number is from 1 to `most`;
/// `None` for any other word.
fn count(word: &str, most: u32) -> Option<u32>
    ensures { Finds (IsCount most word.now) result }
{
    if word.len() > 10 {
        return None;
    }
    if has_plus(word) {
        return None;
    }
    match word.parse::<u32>() {
        Ok(number) => within(number, most),
        Err(_) => None,
    }
}

/// Returns this number, if it is from 1 to `most`; else `None`.
fn within(number: u32, most: u32) -> Option<u32>
    ensures { Finds (λ n. (n ≡ number) × (1 ≤ n) × (n ≤ most)) result }
{
    if (1 <= number) & (number <= most) {
        Some(number)
    } else {
        None
    }
}

/// Returns the value of the option `name`, if it is a number from 1 to `most`; else `None`.
fn count_of(matches: &ArgMatches<'_>, name: &str, most: u32) -> Option<u32>
    ensures { Finds (λ n. IfGiven (first_value (found_of matches.now) name.now)
        (λ text. IsCount most text n)) result }
{
    count(matches.get_str(name)?, most)
}

/// Returns the ports of the options `core` and `abort`, or those of a server without options;
/// `None` if only one option is given, or a value isn't a port.
pub(crate) fn ports(matches: &ArgMatches<'_>) -> Option<Ports>
    ensures { Finds (HasPorts (λ name. first_value (found_of matches.now) name)) result }
{
    match (matches.get_str("core"), matches.get_str("abort")) {
        (None, None) => Some(Ports {
            core: CORE,
            abort: ABORT,
        }),
        (Some(core), Some(abort)) => Some(Ports {
            core: count(core, 65_535)? as u16,
            abort: count(abort, 65_535)? as u16,
        }),
        (None, Some(_)) => None,
        (Some(_), None) => None,
    }
}

/// Returns the value of the option `control`: `Some(None)` if the option isn't given, `None` if its
/// value isn't a port.
fn control_of(matches: &ArgMatches<'_>) -> Option<Option<u16>>
    ensures { Finds (λ port. IfBoth (first_value (found_of matches.now) (codes "control")) port
        (λ text n. IsCount 65535 text n)) result }
{
    match matches.get_str("control") {
        None => Some(None),
        Some(word) => match count(word, 65_535) {
            Some(port) => Some(Some(port as u16)),
            None => None,
        },
    }
}

/// Returns what to serve, as the values of the options say; `None` if a value isn't valid.
pub(crate) fn told<'a>(matches: &ArgMatches<'a>) -> Option<Serve<'a>>
    ensures { Finds (ServesBy (λ name. first_value (found_of matches.now) name)) result }
{
    Some(Serve {
        core: count_of(matches, "core", 65_535)? as u16,
        abort: count_of(matches, "abort", 65_535)? as u16,
        portmap: count_of(matches, "portmap", 65_535)? as u16,
        scenario: matches.get_str("scenario")?,
        sweeps: count_of(matches, "sweeps", u32::MAX)?,
        record: matches.get_str("record"),
        control: control_of(matches)?,
    })
}
