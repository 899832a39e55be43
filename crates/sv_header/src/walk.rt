//! The walk through the tree of headers.

ghost use Rattle.std.specs.Prelude.{ℕ, ◌≤◌, length};
ghost use Rattle.sv_header.specs.Plain.{left_of};
ghost use Rattle.sv_header.specs.Inside.Walk.{IsFound, Leads, LeadsBelow, OnLeft};

use crate::branch::Branch;
use crate::command::CommandId;
use crate::left::Mnemonics;

/// Returns the command to which the mnemonics lead, through sibling nodes and the nodes below them.
/// Three ways are tried, in this order: the first mnemonic is a form of the first sibling; the
/// first sibling is optional, and the header omits it; a later sibling leads to the command.
#[cycle(walk)]
pub(crate) fn walk(left: &Mnemonics<'_>, query: bool, branches: &[Branch]) -> Option<CommandId>
    ensures { (fuel : ℕ) → length branches.now ≤ fuel
        → IsFound result (λ command. Leads fuel query branches.now (left_of left.now) command) }
{
    let [branch, behind @ ..] = branches else {
        return None;
    };
    let (children, siblings) = behind.split_at(branch.below.min(behind.len()));
    let taken = match left.first {
        Some(first) if branch.node.fits(first) => Some(Mnemonics::new(left.kept, left.sent)),
        Some(_) => None,
        None => None,
    };
    let there = below(taken, query, branch, children);
    if there.is_some() {
        return there;
    }
    let all = branch.node.optional.then_some(*left);
    let absent = below(all, query, branch, children);
    if absent.is_some() {
        return absent;
    }
    walk(left, query, siblings)
}

/// Returns the command to which the mnemonics after a node lead: the node's own command if no
/// mnemonic remains, or a command below the node.
#[cycle(walk)]
fn below(
    left: Option<Mnemonics<'_>>,
    query: bool,
    branch: &Branch,
    children: &[Branch],
) -> Option<CommandId>
    ensures { (fuel : ℕ) → length children.now ≤ fuel
        → IsFound result (λ command. OnLeft left.entry (λ left. LeadsBelow query branch.now
        (λ others. Leads fuel query children.now others command) left command)) }
{
    let left = left?;
    match branch.ending(&left, query) {
        Some(command) => Some(command),
        None => walk(&left, query, children),
    }
}
