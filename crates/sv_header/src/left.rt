//! The mnemonics of a header that are still to be looked up.

ghost use Rattle.std.specs.Prelude.{◌≡◌, ◌++◌};
ghost use Rattle.sv_header.specs.Plain.{left_of, sent_of};

use crate::path::Mnemonic;
use sv_text::first_part;

/// The mnemonics of a header that are still to be looked up in the tree: `first`, then those of the
/// path in `kept`, then those of the header's text in `sent`.
#[derive(Clone, Copy)]
pub(crate) struct Mnemonics<'a> {
    /// The mnemonic that is looked up next; `None` if none remains.
    pub(crate) first: Option<&'a [u8]>,
    /// The mnemonics of the path that are looked up after `first`.
    pub(crate) kept: &'a [Mnemonic],
    /// The part of the header whose mnemonics are looked up after `kept`; `None` if there are none.
    pub(crate) sent: Option<&'a [u8]>,
}

impl<'a> Mnemonics<'a> {
    /// Returns the mnemonics of a path, followed by those of a text.
    pub(crate) fn new(kept: &'a [Mnemonic], sent: Option<&'a [u8]>) -> Mnemonics<'a>
        ensures { left_of result ≡ kept.now ++ sent_of sent.entry }
    {
        if let [first, behind @ ..] = kept {
            return Mnemonics {
                first: Some(first.text()),
                kept: behind,
                sent,
            };
        }
        let Some(text) = sent else {
            return Mnemonics {
                first: None,
                kept,
                sent,
            };
        };
        let (first, behind) = first_part(text, b':');
        Mnemonics {
            first: Some(first),
            kept,
            sent: behind,
        }
    }
}
