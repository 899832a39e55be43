//! Printing response data (IEEE 488.2, 8.7). Each function appends to a vector, which must have
//! room for the text.

ghost use Rattle.std.specs.Prelude.{◌≡◌, ◌≤◌, ◌+◌, ◌*◌, ◌++◌, codes, decimal, length, unsigned_abs, vec_capacity, vec_len};
ghost use Rattle.std.specs.Fmt.{signed_decimal};
ghost use Rattle.std.specs.List.{join_by};
ghost use Rattle.sv_errors.specs.Code.{text_of};
ghost use Rattle.sv_value.specs.Printing.{channels_text, error_text, overload_text, source_text, switch_text, whole_text};
ghost use Rattle.sv_value.specs.PrintedVoltage.{voltage_text};

use crate::writing::write_microvolts;
use itoa::Buffer;
use std::alloc::Allocator;
use sv_bytes::append;
use sv_errors::{Code, Source};

/// Appends a voltage in microvolts, up to 1,000 V in magnitude: a sign (`+` for 0), whole volts, a
/// point and six digits. `out` must have room for 12 more bytes.
pub fn put_voltage<A: Allocator>(out: &mut Vec<u8, A>, microvolts: i64)
    requires room { vec_len out.old + 12 ≤ vec_capacity out.old }
    requires small { unsigned_abs microvolts ≤ 1000000000 }
    ensures text { out.new.items ≡ out.old.items ++ voltage_text microvolts }
    ensures capacity { vec_capacity out.old ≤ vec_capacity out.new }
    ensures bounded { vec_len out.new ≤ vec_len out.old + 12 }
{
    let mut buffer = [0; 16];
    let size = write_microvolts(microvolts, &mut buffer);
    append(out, &buffer[..size]);
}

/// Appends an overload: `-9.9E+37` for a voltage below the range, else `+9.9E+37` (SCPI-1999,
/// volume 1, 7.2.1.5). `out` must have room for 8 more bytes.
pub fn put_overload<A: Allocator>(out: &mut Vec<u8, A>, below: bool)
    requires room { vec_len out.old + 8 ≤ vec_capacity out.old }
    ensures text { out.new.items ≡ out.old.items ++ overload_text below }
    ensures capacity { vec_capacity out.old ≤ vec_capacity out.new }
    ensures bounded { vec_len out.new ≤ vec_len out.old + 8 }
{
    append(out, if below { b"-9.9E+37" } else { b"+9.9E+37" });
}

/// Appends a whole number: its digits, without a sign or leading zeros. `out` must have room for 10
/// more bytes.
pub fn put_whole<A: Allocator>(out: &mut Vec<u8, A>, number: u32)
    requires room { vec_len out.old + 10 ≤ vec_capacity out.old }
    ensures text { out.new.items ≡ out.old.items ++ whole_text number }
    ensures capacity { vec_capacity out.old ≤ vec_capacity out.new }
    ensures bounded { vec_len out.new ≤ vec_len out.old + 10 }
{
    append(out, Buffer::new().format(number).as_bytes());
}

/// Appends a channel list, such as `(@5,4,3,3)`. `out` must have room for 3 more bytes, and 4 for
/// each channel.
pub fn put_channels<A: Allocator>(out: &mut Vec<u8, A>, channels: &[u8])
    requires room { vec_len out.old + (3 + 4 * length channels.now) ≤ vec_capacity out.old }
    ensures text { out.new.items ≡ out.old.items ++ channels_text channels.now }
    ensures capacity { vec_capacity out.old ≤ vec_capacity out.new }
    ensures bounded { vec_len out.new ≤ vec_len out.old + (3 + 4 * length channels.now) }
{
    append(out, b"(@");
    put_joined(out, channels);
    append(out, b")");
}

/// Appends an entry of the error queue, such as `-113,"Undefined header"`: its number, a comma, and
/// its text in double quotes (SCPI-1999, volume 2, section 21.8). `out` must have room for 40 more
/// bytes.
pub fn put_error<A: Allocator>(out: &mut Vec<u8, A>, code: Code)
    requires room { vec_len out.old + 40 ≤ vec_capacity out.old }
    ensures text { out.new.items ≡ out.old.items ++ error_text code }
    ensures capacity { vec_capacity out.old ≤ vec_capacity out.new }
    ensures bounded { vec_len out.new ≤ vec_len out.old + 40 }
{
    put_number(out, code.number());
    append(out, b",\"");
    append(out, short_text(code).as_bytes());
    append(out, b"\"");
}

/// Appends a boolean: `1` for on, `0` for off. `out` must have room for 1 more byte.
pub fn put_switch<A: Allocator>(out: &mut Vec<u8, A>, on: bool)
    requires room { vec_len out.old + 1 ≤ vec_capacity out.old }
    ensures text { out.new.items ≡ out.old.items ++ switch_text on }
    ensures capacity { vec_capacity out.old ≤ vec_capacity out.new }
    ensures bounded { vec_len out.new ≤ vec_len out.old + 1 }
{
    append(out, if on { b"1" } else { b"0" });
}

/// Appends the short form of a source of triggers: `IMM`, `BUS` or `EXT`. `out` must have room for
/// 3 more bytes.
pub fn put_source<A: Allocator>(out: &mut Vec<u8, A>, source: Source)
    requires room { vec_len out.old + 3 ≤ vec_capacity out.old }
    ensures text { out.new.items ≡ out.old.items ++ source_text source }
    ensures capacity { vec_capacity out.old ≤ vec_capacity out.new }
    ensures bounded { vec_len out.new ≤ vec_len out.old + 3 }
{
    let keyword: &[u8] = match source {
        Source::Immediate => b"IMM",
        Source::Bus => b"BUS",
        Source::External => b"EXT",
    };
    append(out, keyword);
}

/// Appends a number in decimal, with a minus in front if it is below 0.
fn put_number<A: Allocator>(out: &mut Vec<u8, A>, value: i16)
    requires room { vec_len out.old + 6 ≤ vec_capacity out.old }
    ensures text { out.new.items ≡ out.old.items ++ signed_decimal value }
    ensures capacity { vec_capacity out.old ≤ vec_capacity out.new }
    ensures bounded { vec_len out.new ≤ vec_len out.old + 6 }
{
    append(out, Buffer::new().format(value).as_bytes());
}

/// Returns the text of an error. The text has at most 31 bytes.
fn short_text(code: Code) -> &'static str
    ensures value { result.now ≡ text_of code }
    ensures short { length result.now ≤ 31 }
{
    code.text()
}

/// Appends channels in decimal, with commas between them.
fn put_joined<A: Allocator>(out: &mut Vec<u8, A>, channels: &[u8])
    requires room { vec_len out.old + 4 * length channels.now ≤ vec_capacity out.old }
    ensures text { out.new.items ≡ out.old.items ++ join_by decimal (codes ",") channels.now }
    ensures capacity { vec_capacity out.old ≤ vec_capacity out.new }
    ensures bounded { vec_len out.new ≤ vec_len out.old + 4 * length channels.now }
{
    let [first, others @ ..] = channels else {
        return;
    };
    put_channel(out, *first);
    for channel in others {
        append(out, b",");
        put_channel(out, *channel);
    }
}

/// Appends a channel in decimal.
fn put_channel<A: Allocator>(out: &mut Vec<u8, A>, channel: u8)
    requires room { vec_len out.old + 3 ≤ vec_capacity out.old }
    ensures text { out.new.items ≡ out.old.items ++ decimal channel }
    ensures capacity { vec_capacity out.old ≤ vec_capacity out.new }
    ensures bounded { vec_len out.new ≤ vec_len out.old + 3 }
{
    append(out, Buffer::new().format(channel).as_bytes());
}
