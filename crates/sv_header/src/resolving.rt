//! The command that a header names.

ghost use Rattle.std.specs.Prelude.{◌≡◌, MatchResult};
ghost use Rattle.sv_errors.specs.declared.code.Code.TheVariants.{UndefinedHeader};
ghost use Rattle.sv_header.specs.declared.command.CommandId.{CommandId as Command};
ghost use Rattle.sv_header.specs.Resolve.{Resolves};

use crate::branch::Branch;
use crate::command::CommandId;
use crate::left::Mnemonics;
use crate::path::Path;
use crate::table::{
    COMMON_COMMANDS, COMMON_NODES, MEASURING, NODES, SETTINGS, STATUS_NODES, SYSTEM_NODES,
};
use crate::walk::walk;
use std::alloc::{AllocError, Allocator, Global};
use std::marker::Model;
use sv_errors::Code;
use sv_text::{Lead, header_parts};

/// The table of commands in memory: a tree whose nodes are mnemonics. The nodes on the way from the
/// root down to a node are the pattern of a header.
#[derive(Drop)]
pub struct Table<A: Allocator = Global> {
    branches: Vec<Branch, A>,
}

impl<A: Allocator> Model for Table<A> {
    ghost use Rattle.sv_header.specs.Inside.Tree.{IsTree};

    ghost Value = { Unit {0} };

    ghost view = { λ _. tt };

    ghost invariant = { λ a. IsTree a.branches.items };
}

impl<A: Allocator> Table<A> {
    /// Makes the table of all commands. This allocates all the memory that the table ever uses.
    ///
    /// # Errors
    /// If memory is refused.
    pub fn new(alloc: A) -> Result<Table<A>, AllocError> {
        let mut branches = Vec::with_capacity(alloc, NODES)?;
        branches.extend_from_slice(COMMON_COMMANDS)?;
        branches.extend_from_slice(SYSTEM_NODES)?;
        branches.extend_from_slice(STATUS_NODES)?;
        branches.extend_from_slice(SETTINGS)?;
        branches.extend_from_slice(MEASURING)?;
        Ok(Table { branches })
    }

    /// Returns the command that a header names if it is read relative to the path (SCPI-1999,
    /// volume 1, chapter 6).
    ///
    /// # Errors
    /// [`Code::UndefinedHeader`] if the header names no command.
    pub fn resolve(&self, path: &Path, header: &[u8]) -> Result<CommandId, Code>
        ensures { MatchResult result (λ command. Resolves path.now header.now command)
            (λ code. (code ≡ UndefinedHeader)
            × ((command : Command) → Resolves path.now header.now command → ⊥)) }
    {
        let parts = header_parts(header);
        let (commons, others) = self.branches.split_at(COMMON_NODES);
        let roots = match parts.lead {
            Lead::Common => commons,
            Lead::Root | Lead::Onward => others,
        };
        let kept: &[_] = match parts.lead {
            Lead::Common | Lead::Root => &[],
            Lead::Onward => path.mnemonics(),
        };
        let mnemonics = Mnemonics::new(kept, Some(parts.body));
        walk(&mnemonics, parts.query, roots).ok_or(Code::UndefinedHeader)
    }
}
