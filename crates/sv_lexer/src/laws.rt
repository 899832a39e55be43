//! A law of the tokens of a unit.

ghost use Rattle.sv_lexer.specs.Order.{InOrder};

/// The tokens of a unit follow each other in order, and no two of them overlap.
pub fn tokens_in_order()
    ensures { InOrder }
{}
