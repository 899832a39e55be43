//! Reading from a response.

ghost use Rattle.std.specs.Prelude.{◌≡◌, ◌≤◌, length};
ghost use Rattle.sv_exchange.specs.Read.{ends_at_term};

/// The next bytes of a response, and why the read ends after them.
#[derive(Clone, Copy)]
pub struct Read<'a> {
    /// As many bytes were read as were requested.
    pub request_count: bool,
    /// The read ends with the termination character.
    pub character: bool,
    /// The read ends with the last byte of the response.
    pub end: bool,
    /// The bytes that the read returns.
    pub bytes: &'a [u8],
}

/// Whether the first `count` bytes of the response end with the termination character; false if
/// `count` is 0 or there is no termination character.
pub(crate) fn ends_at(response: &[u8], count: usize, term: Option<u8>) -> bool
    requires { count ≤ length response.now }
    ensures { result ≡ ends_at_term response.now count term }
{
    match term {
        Some(last) => count > 0 && response[count - 1] == last,
        None => false,
    }
}
