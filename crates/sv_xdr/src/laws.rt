//! Laws of the encoding. Each law is the contract of a function with an empty body.

ghost use Rattle.sv_xdr.specs.Laws.{PrefixFree, OneSpelling};

/// Within one kind of field, no encoding is a proper prefix of another: if the same bytes can be
/// split in two ways into an encoding and a rest, both encodings are equal, and so are both fields.
pub fn prefix_free()
    ensures { PrefixFree }
{}

/// A field has at most one encoding.
pub fn one_spelling()
    ensures { OneSpelling }
{}
