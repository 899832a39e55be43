//! The parts of a header.

ghost use Rattle.std.specs.Prelude.{◌≡◌};
ghost use Rattle.sv_text.specs.Header.{body, is_query, lead as lead_of, unsigned};

/// What a header begins with.
#[derive(Clone, Copy, Debug)]
pub enum Lead {
    /// An asterisk: a common command (IEEE 488.2, 7.6.1).
    Common,
    /// A colon: the header starts at the root of the command tree.
    Root,
    /// Neither an asterisk nor a colon: the header continues the path that earlier headers left.
    Onward,
}

/// The parts into which a header is split. Any bytes can be split into these parts, even bytes that
/// aren't a header.
#[derive(Clone, Copy)]
pub struct Header<'a> {
    /// What the header begins with.
    pub lead: Lead,
    /// The mnemonics and the colons between them.
    pub body: &'a [u8],
    /// Whether a question mark ends the header.
    pub query: bool,
}

/// Splits a header into its parts.
pub fn header_parts(header: &[u8]) -> Header<'_>
    ensures lead { result.lead ≡ lead_of header.now }
    ensures body { result.body.now ≡ body header.now }
    ensures query { result.query ≡ is_query header.now }
{
    let query = has_sign(header);
    let text = without_sign(header);
    let lead = match header {
        [b'*', ..] => Lead::Common,
        [b':', ..] => Lead::Root,
        _ => Lead::Onward,
    };
    let body = match lead {
        Lead::Common | Lead::Root => text.get(1..).unwrap_or(&[]),
        Lead::Onward => text,
    };
    Header { lead, body, query }
}

/// A header without the question mark at its end, if it has one.
fn without_sign(header: &[u8]) -> &[u8]
    ensures { result.now ≡ unsigned header.now }
{
    match header {
        [front @ .., b'?'] => front,
        _ => header,
    }
}

/// Whether a header ends in a question mark.
fn has_sign(header: &[u8]) -> bool
    ensures { result ≡ is_query header.now }
{
    matches!(header, [.., b'?'])
}
