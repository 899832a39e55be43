//! The path that a header leaves for the next one.

ghost use Rattle.std.specs.Prelude.{◌≡◌, ◌≤◌, ◌+◌, [], ◌++◌, true, length};
ghost use Rattle.sv_header.specs.declared.command.CommandId.{CommandId as Command};
ghost use Rattle.std.specs.List.{list_all};
ghost use Rattle.sv_text.specs.Cut.{cut_at};
ghost use Rattle.sv_header.specs.Plain.{is_short};
ghost use Rattle.sv_header.specs.Resolve.{Resolves, but_last, next_path};

use arrayvec::ArrayVec;
use std::marker::Model;
use sv_text::{Lead, first_part, header_parts};

/// A mnemonic of at most 12 characters.
#[derive(Drop)]
pub(crate) struct Mnemonic {
    text: ArrayVec<u8, 12>,
}

impl Model for Mnemonic {
    ghost use Rattle.std.specs.Prelude.{ℕ, List};

    ghost Value = { List ℕ };

    ghost view = { λ mnemonic. mnemonic.text.items };
}

impl Default for Mnemonic {
    ghost is_default = { λ mnemonic. mnemonic ≡ [] };

    fn default() -> Mnemonic {
        Mnemonic {
            text: ArrayVec::new(),
        }
    }
}

impl Mnemonic {
    /// Returns the characters of the mnemonic.
    pub(crate) fn text(&self) -> &[u8]
        ensures { result.now ≡ self.now }
    {
        self.text.as_slice()
    }

    /// Makes the mnemonic of these characters.
    fn new(characters: &[u8]) -> Mnemonic
        requires { length characters.now ≤ 12 }
        ensures { result ≡ characters.now }
    {
        let mut text = ArrayVec::new();
        let _fits = text.try_extend_from_slice(characters);
        Mnemonic { text }
    }
}

/// The path: mnemonics of the message's earlier headers, as they were sent. They are looked up
/// before the next header's own mnemonics, unless that header starts at the root or is a common
/// command. The path has at most four mnemonics: no pattern has more than five nodes, and the last
/// mnemonic of a header isn't part of the path.
#[derive(Drop)]
pub struct Path {
    mnemonics: ArrayVec<Mnemonic, 4>,
}

impl Model for Path {
    ghost use Rattle.std.specs.Prelude.{ℕ, List};

    ghost Value = { List (List ℕ) };

    ghost view = { λ path. path.mnemonics.items };
}

impl Path {
    /// Returns the empty path, with which a message begins.
    pub fn root() -> Path
        ensures { result ≡ [] }
    {
        Path {
            mnemonics: ArrayVec::new(),
        }
    }

    /// Updates the path after a header that names a command. The new path is the old path followed
    /// by all mnemonics of the header but the last. If the header starts at the root, the old path
    /// is dropped first. A common command doesn't change the path.
    pub fn follow(&mut self, header: &[u8])
        requires { (command : Command) × Resolves self.old header.now command }
        ensures { self.new ≡ next_path self.old header.now }
    {
        let parts = header_parts(header);
        match parts.lead {
            Lead::Common => return,
            Lead::Root => self.mnemonics.clear(),
            Lead::Onward => {}
        }
        let (mut first, mut behind) = first_part(parts.body, b':');
        while let Some(rest) = behind {
            self.mnemonics.push(Mnemonic::new(first));
            (first, behind) = first_part(rest, b':');
        }
    }

    /// Returns the mnemonics of the path.
    pub(crate) fn mnemonics(&self) -> &[Mnemonic]
        ensures { result.now ≡ self.now }
    {
        self.mnemonics.as_slice()
    }
}
