//! A node of a header pattern, and which mnemonics fit the node.

ghost use Rattle.std.specs.Prelude.{◌↔◌, IsTrue};
ghost use Rattle.sv_header.specs.Pattern.{IsForm};
ghost use Rattle.sv_header.specs.Plain.{part};

/// A mnemonic of a pattern, in its short and its long form, in capitals.
#[derive(Clone, Copy)]
pub(crate) struct Node {
    /// The short form.
    pub(crate) short: &'static [u8],
    /// The long form.
    pub(crate) long: &'static [u8],
    /// Whether a header can omit this mnemonic.
    pub(crate) optional: bool,
}

impl Node {
    /// Returns whether the mnemonic is a form of this node.
    pub(crate) fn fits(&self, mnemonic: &[u8]) -> bool
        ensures { IsTrue result ↔ IsForm mnemonic.now (part self.now) }
    {
        mnemonic.eq_ignore_ascii_case(self.short) || mnemonic.eq_ignore_ascii_case(self.long)
    }
}
