//! Laws of the encoding. Each law is the contract of a function with an empty body.

ghost use Rattle.sv_vxi.specs.Laws.{ArgumentsAsSpelled, ArgumentsPrefixFree, ResultsPrefixFree};

/// For each call, the function `arguments_at` returns the arguments that the bytes encode, or
/// `Garbage` if they encode none.
pub fn read_as_spelled()
    ensures { ArgumentsAsSpelled }
{}

/// For each procedure, no encoding of its arguments is a proper prefix of another encoding of its
/// arguments. For each form of result, no encoding of a result is a proper prefix of another. So if
/// the same bytes can be split in two ways into an encoding for one procedure (or of one form of
/// result) and a rest, both encodings are equal, and so are both rests.
pub fn prefix_free()
    ensures arguments { ArgumentsPrefixFree }
    ensures results { ResultsPrefixFree }
{}
