//! The readings of a measurement, printed.

ghost use Rattle.std.specs.Prelude.{◌≡◌, ◌≤◌, ◌+◌, ◌*◌, ◌++◌, true, length, vec_len, vec_capacity};
ghost use Rattle.std.specs.List.{list_all};
ghost use Rattle.sv_scan.specs.Scan.{is_bounded};
ghost use Rattle.sv_instrument.specs.QueryResponse.{reading_text, readings_text};

use std::alloc::Allocator;
use sv_bytes::append;
use sv_scan::Reading;
use sv_value::printing::{put_overload, put_voltage};

/// Appends readings, separated by commas. `out` must have room for 13 more bytes per reading.
pub(crate) fn put_readings<A: Allocator>(out: &mut Vec<u8, A>, readings: &[Reading])
    requires room { vec_len out.old + 13 * length readings.now ≤ vec_capacity out.old }
    requires small { list_all is_bounded readings.now ≡ true }
    ensures text { out.new.items ≡ out.old.items ++ readings_text readings.now }
    ensures capacity { vec_capacity out.old ≤ vec_capacity out.new }
{
    let [first, others @ ..] = readings else {
        return;
    };
    put_reading(out, *first);
    for reading in others {
        append(out, b",");
        put_reading(out, *reading);
    }
}

/// Appends a reading: a voltage, or an overload (SCPI-1999, volume 1, 7.2.1.5).
fn put_reading<A: Allocator>(out: &mut Vec<u8, A>, reading: Reading)
    requires room { vec_len out.old + 12 ≤ vec_capacity out.old }
    requires small { is_bounded reading ≡ true }
    ensures text { out.new.items ≡ out.old.items ++ reading_text reading }
    ensures capacity { vec_capacity out.old ≤ vec_capacity out.new }
    ensures bounded { vec_len out.new ≤ vec_len out.old + 12 }
{
    match reading {
        Reading::Value(microvolts) => put_voltage(out, microvolts),
        Reading::Over => put_overload(out, false),
        Reading::Under => put_overload(out, true),
    }
}
