//! The entries of a scenario: what happens to a server, and when.

ghost use Rattle.std.specs.Prelude.{◌≡◌, Some, IfSome};
ghost use Rattle.sv_history.specs.Event.{plain};
ghost use Rattle.sv_replay.specs.Entry.{stimulus_event, IsAccepted};
ghost use Rattle.sv_replay.specs.Line.{SaysEvent};
ghost use Rattle.sv_replay.specs.EntryReading.{accepted_at, lone_stimulus_at, worded_stimulus_at, stimulus_at, entry_at, entry_from};

use crate::line::{cut, numbered};
use crate::number::{short, voltage};
use crate::text::LONGEST_LINE;
use sv_server::{Event, input_refusal};

/// What happens to a server in a scenario.
#[derive(Clone, Copy)]
pub enum Stimulus {
    /// The input of a channel changes.
    Input {
        /// The channel, from 1 on.
        channel: u8,
        /// The voltage in microvolts, within plus or minus 1,000,000,000.
        microvolts: i64,
    },
    /// A trigger comes at the trigger input.
    External,
}

/// An entry of a scenario: what happens, and when.
#[derive(Clone, Copy)]
pub struct Entry {
    /// When the stimulus comes, in ticks of one millisecond each, from 0 to
    /// 999,999,999,999,999,999.
    pub tick: u64,
    /// What happens at this tick.
    pub stimulus: Stimulus,
}

impl Stimulus {
    /// The event of the server that this stimulus causes.
    pub fn event(self) -> Event<'static>
        ensures { plain result ≡ stimulus_event self }
    {
        match self {
            Stimulus::Input {
                channel,
                microvolts,
            } => Event::Input {
                channel,
                microvolts,
            },
            Stimulus::External => Event::External,
        }
    }
}

/// Reads a line as a stimulus, written like an event of a replay: an `input` or an `external`.
/// `None` if the line is anything else, or the server doesn't accept the stimulus.
pub fn read_stimulus(line: &[u8]) -> Option<Stimulus>
    // The line says the stimulus that was read, and the server accepts it.
    ensures found { IfSome result (λ stimulus. SaysEvent line.now (stimulus_event stimulus)
        × IsAccepted stimulus) }
    // If the line says a stimulus that the server accepts, the result is that stimulus.
    ensures only { (stimulus : Stimulus) → SaysEvent line.now (stimulus_event stimulus)
        → IsAccepted stimulus → result ≡ Some stimulus }
{
    stimulus_of(line)
}

/// Reads a line as an entry. `None` if the line has more than 65,536 bytes, isn't an entry, or has
/// a tick below `least`.
#[tactic(auto, unfolding(crate::specs::EntryReading::entry_from))]
pub(crate) fn timely(line: &[u8], least: u64) -> Option<Entry>
    ensures { result ≡ entry_from least line.now }
{
    if line.len() > LONGEST_LINE {
        return None;
    }
    let entry = entry_of(line)?;
    if entry.tick < least {
        return None;
    }
    Some(entry)
}

/// Reads an entry: a tick, a space, and a stimulus.
#[tactic(auto, unfolding(crate::specs::EntryReading::entry_at))]
fn entry_of(line: &[u8]) -> Option<Entry>
    ensures { result ≡ entry_at line.now }
{
    let (digits, text) = cut(line)?;
    let tick = short(digits)?;
    let stimulus = stimulus_of(text)?;
    Some(Entry { tick, stimulus })
}

/// Reads a stimulus. Cuts the text at its first space, into a word and the text after the space.
#[tactic(auto, unfolding(crate::specs::EntryReading::stimulus_at))]
fn stimulus_of(text: &[u8]) -> Option<Stimulus>
    ensures { result ≡ stimulus_at text.now }
{
    match cut(text) {
        None => lone(text),
        Some((word, rest)) => worded(word, rest),
    }
}

/// Reads a stimulus of one word.
#[tactic(auto, unfolding(crate::specs::EntryReading::lone_stimulus_at))]
fn lone(word: &[u8]) -> Option<Stimulus>
    ensures { result ≡ lone_stimulus_at word.now }
{
    match word {
        b"external" => Some(Stimulus::External),
        _ => None,
    }
}

/// Reads a stimulus of several words. `word` is the first word, and `text` is the text after it.
#[tactic(auto, unfolding(crate::specs::EntryReading::worded_stimulus_at))]
fn worded(word: &[u8], text: &[u8]) -> Option<Stimulus>
    ensures { result ≡ worded_stimulus_at word.now text.now }
{
    match word {
        b"input" => accepted(text),
        _ => None,
    }
}

/// Reads the channel and the voltage of an `input`; `None` if the server doesn't accept them.
#[tactic(auto, unfolding(crate::specs::EntryReading::accepted_at))]
fn accepted(text: &[u8]) -> Option<Stimulus>
    ensures { result ≡ accepted_at text.now }
{
    let (channel, word) = numbered(text)?;
    let microvolts = voltage(word)?;
    match input_refusal(channel, microvolts) {
        None => Some(Stimulus::Input {
            channel,
            microvolts,
        }),
        Some(_) => None,
    }
}
