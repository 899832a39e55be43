//! The port mapper's GETPORT (RFC 1833, section 3).

ghost use Rattle.std.specs.Prelude.{◌≡◌};
ghost use Rattle.sv_rpc.specs.Ports.{PortIs, port_of as port_for, port_at};

use sv_xdr::{Garbage, Reader};

/// The number of the core channel's program.
const CORE: u32 = 0x0607AF;
/// The number of the abort channel's program.
const ABORT: u32 = 0x0607B0;
/// The version of the core channel's and of the abort channel's program.
const VERSION: u32 = 1;
/// The number of the protocol TCP.
const TCP: u32 = 6;

/// The ports on which the core and the abort channel are served.
#[derive(Clone, Copy)]
pub struct Ports {
    /// The port of the core channel.
    pub core: u16,
    /// The port of the abort channel.
    pub abort: u16,
}

/// Answers GETPORT. For the program of the core or the abort channel, at version 1 over TCP, the
/// answer is the port of that channel. For every other program, version or protocol, the answer is
/// 0. Bytes after the arguments are ignored.
///
/// # Errors
/// [`Garbage`] if there are fewer than 16 bytes: the arguments are four numbers of 4 bytes each.
#[tactic(auto, unfolding(crate::specs::Ports::port_at))]
pub fn getport(args: &[u8], ports: Ports) -> Result<u32, Garbage>
    ensures answer { PortIs ports args.now result }
    // The answer is what `port_at` returns for the bytes.
    ensures exact { result ≡ port_at ports args.now }
{
    let mut reader = Reader::new(args);
    let prog = reader.u32()?;
    let vers = reader.u32()?;
    let prot = reader.u32()?;
    let _port = reader.u32()?;
    Ok(port_of(ports, prog, vers, prot))
}

/// The port at which this version of a program is served over this protocol; 0 if it isn't served.
fn port_of(ports: Ports, prog: u32, vers: u32, prot: u32) -> u32
    ensures { result ≡ port_for ports (record { prog = prog; vers = vers; prot = prot; port = 0 }) }
{
    match (prog, vers, prot) {
        (CORE, VERSION, TCP) => u32::from(ports.core),
        (ABORT, VERSION, TCP) => u32::from(ports.abort),
        _ => 0,
    }
}
