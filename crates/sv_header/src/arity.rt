//! How many parameters a command takes.

ghost use Rattle.std.specs.Prelude.{◌≡◌};
ghost use Rattle.sv_header.specs.Arity.{most_parameters as most_of};

use crate::command::CommandId;

impl CommandId {
    /// Returns how many parameters the command takes at most: one if its parameter is a value or a
    /// channel list, else none (IEEE 488.2, chapter 10; SCPI-1999, volume 2).
    pub fn most_parameters(self) -> usize
        ensures { result ≡ most_of self }
    {
        match self {
            CommandId::Do(_) | CommandId::Ask(_) => 0,
            CommandId::Set(_) | CommandId::Configure | CommandId::Measure => 1,
        }
    }
}
