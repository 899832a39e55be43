//! A law of the table of commands.

ghost use Rattle.sv_header.specs.Laws.{OneCommand, OnePattern};

/// A header that is read relative to a path names at most one command, and fits at most one pattern
/// (SCPI-1999, volume 1, chapter 6).
pub fn one_pattern()
    ensures command { OneCommand }
    ensures pattern { OnePattern }
{}
