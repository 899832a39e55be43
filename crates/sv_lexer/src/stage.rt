//! The stages of reading a unit whose bytes come one by one.

ghost use Rattle.std.specs.Prelude.{◌≡◌};
ghost use Rattle.sv_lexer.specs.Inside.Stage.{next as next_of};

/// How far a unit was read: the part of the unit to which the last byte read belongs (IEEE 488.2,
/// 7.3 and 7.6).
#[derive(Clone, Copy)]
pub(crate) enum Stage {
    /// No byte was read yet, or only white space before the program header.
    WhiteSpace,
    /// The asterisk of a common command program header.
    Asterisk,
    /// A colon of the header.
    Colon,
    /// The program mnemonic of a common command.
    CommonMnemonic,
    /// A program mnemonic of a header that isn't a common command.
    Mnemonic,
    /// The question mark at the end of the header.
    QuerySign,
    /// White space after the header: the program header separator.
    HeaderSeparator,
    /// Program data.
    ProgramData,
    /// White space after program data.
    DataSpace,
    /// A header that isn't well-formed, and the bytes after it.
    Misspelled,
    /// A byte that isn't allowed in a unit, and the bytes after it.
    Illegal,
}

/// The stage that follows `stage` if the next byte is `byte`. A header has a mnemonic after an
/// asterisk, and mnemonics between colons (IEEE 488.2, 7.6.1); a question mark can end it.
pub(crate) fn next(stage: Stage, byte: u8) -> Stage
    ensures { result ≡ next_of stage byte }
{
    match (stage, byte) {
        (Stage::Illegal, _) | (_, b'\n' | 127..=255) => Stage::Illegal,
        (Stage::WhiteSpace, 0..=b' ') => Stage::WhiteSpace,
        (
            Stage::CommonMnemonic | Stage::Mnemonic | Stage::QuerySign | Stage::HeaderSeparator,
            0..=b' ',
        ) => Stage::HeaderSeparator,
        (Stage::ProgramData | Stage::DataSpace, 0..=b' ') => Stage::DataSpace,
        (Stage::HeaderSeparator | Stage::ProgramData | Stage::DataSpace, _) => Stage::ProgramData,
        (Stage::WhiteSpace, b'*') => Stage::Asterisk,
        (Stage::WhiteSpace | Stage::Mnemonic, b':') => Stage::Colon,
        (Stage::Asterisk, b'A'..=b'Z' | b'a'..=b'z') => Stage::CommonMnemonic,
        (Stage::WhiteSpace | Stage::Colon, b'A'..=b'Z' | b'a'..=b'z') => Stage::Mnemonic,
        (Stage::CommonMnemonic, b'A'..=b'Z' | b'a'..=b'z' | b'0'..=b'9' | b'_') => {
            Stage::CommonMnemonic
        }
        (Stage::Mnemonic, b'A'..=b'Z' | b'a'..=b'z' | b'0'..=b'9' | b'_') => Stage::Mnemonic,
        (Stage::CommonMnemonic | Stage::Mnemonic, b'?') => Stage::QuerySign,
        (
            Stage::WhiteSpace
            | Stage::Asterisk
            | Stage::Colon
            | Stage::CommonMnemonic
            | Stage::Mnemonic
            | Stage::QuerySign
            | Stage::Misspelled,
            _,
        ) => Stage::Misspelled,
    }
}
