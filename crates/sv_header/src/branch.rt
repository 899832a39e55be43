//! The nodes of the tree of headers, as the code stores them.

ghost use Rattle.sv_header.specs.Plain.{left_of};
ghost use Rattle.sv_header.specs.Inside.Tree.{command_of};
ghost use Rattle.sv_header.specs.Inside.Walk.{Ends, IsFound};

use crate::command::CommandId;
use crate::left::Mnemonics;
use crate::pattern::Node;

/// A node of the tree of headers. The tree is stored as a list: right after a node come the nodes
/// below it, and then its next sibling.
#[derive(Clone, Copy)]
pub(crate) struct Branch {
    /// The mnemonic of this node, in its two forms.
    pub(crate) node: Node,
    /// How many nodes are below this node, at any depth.
    pub(crate) below: usize,
    /// The command of the headers that end at this node without a question mark, if there is one.
    pub(crate) plain: Option<CommandId>,
    /// The command of the headers that end at this node with a question mark, if there is one.
    pub(crate) query: Option<CommandId>,
}

impl Branch {
    /// Returns the command of a header that ends at this node; `None` if mnemonics of the header
    /// remain in `left`, or if no command has a header that ends here.
    pub(crate) fn ending(&self, left: &Mnemonics<'_>, query: bool) -> Option<CommandId>
        ensures { IsFound result
            (λ command. Ends (left_of left.now) (command_of query self.now) command) }
    {
        match left.first {
            None => { if query { self.query } else { self.plain } }
            Some(_) => None,
        }
    }
}
