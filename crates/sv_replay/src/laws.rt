//! Laws of lines, scenarios and runs. Each is the contract of a function that does nothing.

ghost use Rattle.sv_replay.specs.Laws.{IsFiltered, OneLine, OneScenario, ToldInOrder};

/// A line has at most one meaning.
pub fn one_line()
    ensures { OneLine }
{}

/// A text can be read as at most one list of entries.
pub fn one_scenario()
    ensures { OneScenario }
{}

/// If a text is read as a list of entries, the list is a scenario: the server accepts each entry,
/// and no tick is lower than the tick before it.
pub fn told_in_order()
    ensures { ToldInOrder }
{}

/// What an explained run prints, without the lines that begin with `@`, `-` or `=`, is what a
/// replay prints for the same text. So it is for every result, also if the writer fails within a
/// line.
pub fn filtered()
    ensures { IsFiltered }
{}
