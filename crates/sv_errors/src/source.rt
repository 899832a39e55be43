//! The sources of triggers (SCPI-1999, volume 2, chapter 24).

/// A source of triggers.
#[derive(Clone, Copy, Debug)]
pub enum Source {
    /// The instrument itself, as soon as it waits for a trigger: `IMMediate`.
    Immediate,
    /// The controller: `BUS`.
    Bus,
    /// The trigger input: `EXTernal`.
    External,
}
