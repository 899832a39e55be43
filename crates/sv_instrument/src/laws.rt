//! Laws of how units are read, and of the steps of the instrument.

ghost use Rattle.sv_instrument.specs.Laws.{OneReading, OneStep};

/// A unit can be read relative to a path in only one way: as one order or one error, and with one
/// path for the next unit.
pub fn one_reading()
    ensures { OneReading }
{}

/// After each log at most one step of message exchange is due, and it leads to only one log.
pub fn one_step()
    ensures { OneStep }
{}
