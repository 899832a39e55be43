//! Prints values as response data.

use crate::parts::codes::code_of;
use crate::parts::line::put_text;
use crate::parts::values::parameter;
use crate::words::{bad, cut, value_of};
use std::alloc::Global;
use std::io;
use sv_errors::LONGEST_LIST;
use sv_value::printing::{
    put_channels, put_error, put_overload, put_source, put_switch, put_voltage, put_whole,
};
use sv_value::{channel_list, keyword, microvolts};

/// The most bytes of a response: the longest list of channels, with three digits for each channel.
const MOST: usize = 3 + 4 * LONGEST_LIST;

/// Prints a value as response data.
pub(crate) fn put_response(alloc: Global, out: &mut String, text: &str) -> io::Result<()> {
    let mut bytes = Vec::with_capacity(alloc, MOST)?;
    let (kind, text) = cut(text);
    match kind {
        "voltage" => match microvolts(&parameter(text)?) {
            Ok(voltage) => put_voltage(&mut bytes, voltage),
            Err(_) => return Err(bad()),
        },
        "channels" => match channel_list(&parameter(text)?) {
            Ok(channels) => put_channels(&mut bytes, channels.as_slice()),
            Err(_) => return Err(bad()),
        },
        "source" => match keyword(&parameter(text)?) {
            Ok(source) => put_source(&mut bytes, source),
            Err(_) => return Err(bad()),
        },
        "overload" => put_overload(&mut bytes, value_of(text)?),
        "whole" => put_whole(&mut bytes, value_of(text)?),
        "error" => put_error(&mut bytes, code_of(text)?),
        "switch" => put_switch(&mut bytes, value_of(text)?),
        _ => return Err(bad()),
    }
    put_text(out, bytes.as_slice())
}
