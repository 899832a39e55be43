//! The values of parameters, in the form that settings and orders have.

ghost use Rattle.std.specs.Prelude.{◌≡◌};
ghost use Rattle.sv_value.specs.Value.{read_whole, read_channels};
ghost use Rattle.sv_instrument.specs.Command.Order.{parameter_of as given_by, only_channel, channels_in};

use sv_errors::Code;
use sv_lexer::Token;
use sv_scan::ScanList;
use sv_value::{channel_list, whole};

/// Reads a mask of eight bits.
pub(crate) fn mask(token: &Token<'_>) -> Result<u8, Code>
    ensures { result ≡ read_whole 0 255 token.now.kind token.now.text.now }
{
    Ok(whole(token, 0, 255)? as u8)
}

/// Reads a mask of sixteen bits.
pub(crate) fn word(token: &Token<'_>) -> Result<u16, Code>
    ensures { result ≡ read_whole 0 65535 token.now.kind token.now.text.now }
{
    whole(token, 0, u16::MAX)
}

/// Reads the channels of a scan.
pub(crate) fn list(token: &Token<'_>) -> Result<ScanList, Code>
    ensures { result ≡ read_channels token.now.kind token.now.text.now }
{
    Ok(ScanList::new(channel_list(token)?))
}

/// Reads the parameter, which is a channel list; returns `None` if there is no parameter.
pub(crate) fn list_if_given(given: Option<Token<'_>>) -> Result<Option<ScanList>, Code>
    ensures { result ≡ channels_in (given_by given.entry) }
{
    match given {
        Some(token) => Ok(Some(list(&token)?)),
        None => Ok(None),
    }
}

/// Reads the monitored channel: a list of exactly one channel. Returns -223 if the list has more
/// channels.
pub(crate) fn monitor(token: &Token<'_>) -> Result<u8, Code>
    ensures { result ≡ only_channel (read_channels token.now.kind token.now.text.now) }
{
    match channel_list(token)?.as_slice() {
        [channel] => Ok(*channel),
        [] => Err(Code::InvalidExpression),
        [_, _, ..] => Err(Code::TooMuchData),
    }
}
