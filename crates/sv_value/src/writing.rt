//! Printing voltages.

ghost use Rattle.std.specs.Prelude.{◌≡◌, ◌≤◌, ◌<◌, ◌+◌, ◌++◌, ℕ, List, length, drop, unsigned_abs};
ghost use Rattle.sv_value.specs.PrintedVoltage.{sign, six_digits, voltage_text};

use itoa::Buffer;

/// How many microvolts a volt has.
const VOLT: u64 = 1_000_000;

/// Prints a voltage in microvolts, up to 1,000 V in magnitude: a sign (`+` for 0), whole volts, a
/// point and six digits. Writes the text to the front of `out`, which must have at least 16 bytes.
/// Returns the length of the text, at most 12.
#[tactic(auto, using(crate::proofs::Printed::volts_short))]
pub fn write_microvolts(value: i64, out: &mut [u8]) -> usize
    requires room { 16 ≤ length out.old }
    requires small { unsigned_abs value ≤ 1000000000 }
    ensures size { result ≡ length (voltage_text value) }
    ensures few { result ≤ 12 }
    ensures text { out.new ≡ voltage_text value ++ drop (length (voltage_text value)) out.old }
{
    let magnitude = value.unsigned_abs();
    let mut size = put(out, 0, &[sign_of(value)]);
    size = put(out, size, Buffer::new().format(magnitude / VOLT).as_bytes());
    size = put(out, size, b".");
    put_six(out, size, magnitude % VOLT)
}

/// Returns the sign of a voltage; 0 has a plus.
fn sign_of(value: i64) -> u8
    ensures { result ≡ sign value }
{
    if value < 0 { b'-' } else { b'+' }
}

/// Writes a number as six digits to `out` from index `place`, and returns the index after them.
#[tactic(auto, using(crate::proofs::Printed::six_short))]
fn put_six(out: &mut [u8], place: usize, number: u64) -> usize
    requires small { number < 1000000 }
    requires room { place + 6 ≤ length out.old }
    ensures place { result ≡ place + 6 }
    ensures text { (text rest : List ℕ) → length text ≡ place → out.old ≡ text ++ rest
        → out.new ≡ text ++ (six_digits number ++ drop 6 rest) }
{
    let mut buffer = Buffer::new();
    let digits = buffer.format(number).as_bytes();
    let zeros: &[u8] = b"000000";
    let behind = put(out, place, &zeros[digits.len()..]);
    put(out, behind, digits)
}

/// Writes bytes to `out` from index `place`, and returns the index after them.
fn put(out: &mut [u8], place: usize, bytes: &[u8]) -> usize
    requires { place + length bytes.now ≤ length out.old }
    ensures place { result ≡ place + length bytes.now }
    ensures same { length out.new ≡ length out.old }
    ensures text { (text rest : List ℕ) → length text ≡ place → out.old ≡ text ++ rest
        → out.new ≡ text ++ (bytes.now ++ drop (length bytes.now) rest) }
{
    let behind = place + bytes.len();
    out[place..behind].copy_from_slice(bytes);
    behind
}
