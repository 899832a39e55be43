//! Reading a line of a replay.

ghost use Rattle.std.specs.Prelude.{◌≡◌, ◌<◌, ◌≤◌, length, option_map, IfSome, IsSomeAnd};
ghost use Rattle.sv_replay.specs.Line.{Line as Said, Says};
ghost use Rattle.sv_replay.specs.PlainLine.{plain_line};
ghost use Rattle.sv_replay.specs.Reading.{cut_at, numbered_at, role_at, ok_at, port_at, ticks_at, open_at, bytes_at, dialed_at, input_at, traffic_at, event_at, lone_at, words_at, line_at};
ghost use Rattle.sv_history.specs.Event.{plain as plain_event};

use crate::hex_digits::decode;
use crate::number::{byte, plain, voltage};
use sv_server::{Event, Port, Role};

/// The meaning of a line of a replay.
#[derive(Clone, Copy)]
pub enum Line<'a> {
    /// The line is empty: nothing happens.
    Blank,
    /// This event happens.
    One(Event<'a>),
    /// This number of milliseconds passes.
    Ticks(u32),
}

/// Reads a line without its new line; `None` if it isn't a line of a replay. The bytes of a `bytes`
/// line are stored in `buffer`, which must be at least as long as the line.
pub fn read_line<'a>(line: &[u8], buffer: &'a mut [u8]) -> Option<Line<'a>>
    requires { length line.now ≤ length buffer.old }
    // If there is a result, it is a meaning of the line.
    ensures found { IfSome result (λ l. Says line.now (plain_line l)) }
    // If the line has a meaning, the result is that meaning.
    ensures only { (l : Said) → Says line.now l → IsSomeAnd result (λ f. plain_line f ≡ l) }
{
    line_of(line, buffer)
}

/// Reads a line. Cuts the line at its first space, into a word and the text after the space.
#[tactic(auto, unfolding(crate::specs::Reading::line_at))]
fn line_of<'a>(line: &[u8], buffer: &'a mut [u8]) -> Option<Line<'a>>
    requires { length line.now ≤ length buffer.old }
    ensures { option_map plain_line result ≡ line_at line.now }
{
    match cut(line) {
        None => lone(line),
        Some((word, text)) => words(word, text, buffer),
    }
}

/// The text before the first space, and the text after it; `None` if there is no space.
pub(crate) fn cut(text: &[u8]) -> Option<(&[u8], &[u8])>
    ensures exact { option_map (λ cut. (cut.0.now, cut.1.now)) result ≡ cut_at text.now }
    ensures shorter { IfSome result (λ cut. length cut.1.now < length text.now) }
{
    let at = text.iter().position(|byte| *byte == b' ')?;
    Some((&text[..at], &text[at + 1..]))
}

/// Reads a line that is empty or has one word.
#[tactic(auto, unfolding(crate::specs::Reading::lone_at))]
fn lone<'a>(word: &[u8]) -> Option<Line<'a>>
    ensures { option_map plain_line result ≡ lone_at word.now }
{
    match word {
        b"" => Some(Line::Blank),
        b"external" => Some(Line::One(Event::External)),
        b"tick" => Some(Line::One(Event::Tick)),
        _ => None,
    }
}

/// Reads a line of several words. `word` is the first word, and `text` is the text after it.
#[tactic(auto, unfolding(crate::specs::Reading::words_at))]
fn words<'a>(word: &[u8], text: &[u8], buffer: &'a mut [u8]) -> Option<Line<'a>>
    requires { length text.now ≤ length buffer.old }
    ensures { option_map plain_line result ≡ words_at word.now text.now }
{
    match word {
        b"tick" => ticks(text),
        b"input" => Some(Line::One(input(text)?)),
        _ => Some(Line::One(event(word, text, buffer)?)),
    }
}

/// Reads an event of a connection or an interrupt channel. `word` is the first word of the line,
/// and `text` is the text after that word.
#[tactic(auto, unfolding(crate::specs::Reading::event_at))]
fn event<'a>(word: &[u8], text: &[u8], buffer: &'a mut [u8]) -> Option<Event<'a>>
    requires { length text.now ≤ length buffer.old }
    ensures { option_map plain_event result ≡ event_at word.now text.now }
{
    match word {
        b"open" => open(text),
        b"close" => Some(Event::Close { port: port(text)? }),
        b"dialed" => dialed(text),
        _ => traffic(word, text, buffer),
    }
}

/// Reads a `bytes`, a `turn` or a `refuse`. `word` is the first word of the line, and `text` is the
/// text after that word.
#[tactic(auto, unfolding(crate::specs::Reading::traffic_at))]
fn traffic<'a>(word: &[u8], text: &[u8], buffer: &'a mut [u8]) -> Option<Event<'a>>
    requires { length text.now ≤ length buffer.old }
    ensures { option_map plain_event result ≡ traffic_at word.now text.now }
{
    match word {
        b"bytes" => bytes(text, buffer),
        b"turn" => Some(Event::Turn { conn: byte(text)? }),
        b"refuse" => Some(Event::Refuse { conn: byte(text)? }),
        _ => None,
    }
}

/// Reads a number and a space. Returns the number and the text after the space.
#[tactic(auto, unfolding(crate::specs::Reading::numbered_at))]
pub(crate) fn numbered(text: &[u8]) -> Option<(u8, &[u8])>
    ensures exact { option_map (λ x. (x.0, x.1.now)) result ≡ numbered_at text.now }
    ensures shorter { IfSome result (λ x. length x.1.now < length text.now) }
{
    let (digits, rest) = cut(text)?;
    Some((byte(digits)?, rest))
}

/// Reads a number of milliseconds, from 1 to 1,000,000.
#[tactic(auto, unfolding(crate::specs::Reading::ticks_at))]
fn ticks<'a>(digits: &[u8]) -> Option<Line<'a>>
    ensures { option_map plain_line result ≡ ticks_at digits.now }
{
    match plain(digits, 1_000_000)? {
        0 => None,
        count => Some(Line::Ticks(count as u32)),
    }
}

/// Reads an `open`: the connection and its role.
#[tactic(auto, unfolding(crate::specs::Reading::open_at))]
fn open<'a>(text: &[u8]) -> Option<Event<'a>>
    ensures { option_map plain_event result ≡ open_at text.now }
{
    let (conn, word) = numbered(text)?;
    let role = role(word)?;
    Some(Event::Open { conn, role })
}

/// Reads the role of a connection.
#[tactic(auto, unfolding(crate::specs::Reading::role_at))]
fn role(word: &[u8]) -> Option<Role>
    ensures { result ≡ role_at word.now }
{
    match word {
        b"core" => Some(Role::Core),
        b"abort" => Some(Role::Abort),
        b"portmap" => Some(Role::Portmap),
        _ => None,
    }
}

/// Reads a `bytes`: the connection and the bytes. Stores the bytes in `buffer`.
#[tactic(auto, unfolding(crate::specs::Reading::bytes_at))]
fn bytes<'a>(text: &[u8], buffer: &'a mut [u8]) -> Option<Event<'a>>
    requires { length text.now ≤ length buffer.old }
    ensures { option_map plain_event result ≡ bytes_at text.now }
{
    let (conn, hex) = numbered(text)?;
    let len = decode(hex, buffer)?;
    Some(Event::Bytes {
        conn,
        piece: &buffer[..len],
    })
}

/// Reads the port that a `close` names: a connection, or an interrupt channel.
#[tactic(auto, unfolding(crate::specs::Reading::port_at))]
fn port(text: &[u8]) -> Option<Port>
    ensures { result ≡ port_at text.now }
{
    match text {
        [b'c', digits @ ..] => Some(Port::Conn(byte(digits)?)),
        [b'i', digits @ ..] => Some(Port::Intr(byte(digits)?)),
        _ => None,
    }
}

/// Reads a `dialed`: the connection, and whether its interrupt channel was connected.
#[tactic(auto, unfolding(crate::specs::Reading::dialed_at))]
fn dialed<'a>(text: &[u8]) -> Option<Event<'a>>
    ensures { option_map plain_event result ≡ dialed_at text.now }
{
    let (conn, word) = numbered(text)?;
    let ok = outcome(word)?;
    Some(Event::Dialed { conn, ok })
}

/// Reads whether an interrupt channel was connected.
#[tactic(auto, unfolding(crate::specs::Reading::ok_at))]
fn outcome(word: &[u8]) -> Option<bool>
    ensures { result ≡ ok_at word.now }
{
    match word {
        b"ok" => Some(true),
        b"failed" => Some(false),
        _ => None,
    }
}

/// Reads an `input`: the channel and its voltage.
#[tactic(auto, unfolding(crate::specs::Reading::input_at))]
fn input<'a>(text: &[u8]) -> Option<Event<'a>>
    ensures { option_map plain_event result ≡ input_at text.now }
{
    let (channel, word) = numbered(text)?;
    let microvolts = voltage(word)?;
    Some(Event::Input {
        channel,
        microvolts,
    })
}
