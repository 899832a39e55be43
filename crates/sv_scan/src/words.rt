//! The conditions that the status registers watch.

ghost use Rattle.std.specs.Prelude.{◌≡◌, if◌then◌else◌};

/// Bit of the operation register: a scan is under way.
pub(crate) const MEASURING: u16 = 1 << 4;
/// Bit of the operation register: a scan waits for its trigger.
pub(crate) const WAITING: u16 = 1 << 5;
/// Bit of the operation register: a measurement is under way.
pub(crate) const ACQUIRING: u16 = 1 << 8;
/// Bit of the questionable register: the last reading is an overload.
pub(crate) const OVERLOAD: u16 = 1 << 0;
/// Bit of the register of limits: the last reading is below the lower limit.
pub(crate) const BELOW: u16 = 1 << 0;
/// Bit of the register of limits: the last reading is above the upper limit.
pub(crate) const ABOVE: u16 = 1 << 1;
/// Bit of the register of limits: the live input of the monitored channel is outside the limits.
pub(crate) const OUTSIDE: u16 = 1 << 2;

/// The condition words of the status registers, as they are now (SCPI-1999, chapter 20).
#[derive(Clone, Copy)]
pub struct Conditions {
    /// Bit 4: a scan is under way; bit 5: a scan waits for its trigger; bit 8: a measurement is
    /// under way.
    pub operation: u16,
    /// Bit 0: the last reading is an overload. All other bits are 0. The caller adds bit 9, the
    /// summary of the register of limits.
    pub questionable: u16,
    /// With limits on, bit 0: the last reading is below the lower limit; bit 1: the last reading is
    /// above the upper limit; bit 2: the input of the monitored channel is outside the limits.
    pub limit: u16,
}

/// `mask` if `holds` is true, else 0.
pub(crate) fn mask_if(mask: u16, holds: bool) -> u16
    ensures { result ≡ (if holds then mask else 0) }
{
    if holds { mask } else { 0 }
}
