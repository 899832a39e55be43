//! A replay that is under way.

ghost use Rattle.std.specs.Prelude.{◌≡◌, [], length, IfOk};
ghost use Rattle.sv_server.specs.Server.State.{StandsFor};
ghost use Rattle.sv_replay.specs.Text.{nothing_held};
ghost use Rattle.sv_replay.specs.Run.{config_of};

use crate::mode::Mode;
use crate::ports::Ports;
use crate::text::{LONGEST_LINE, Text};
use std::alloc::{AllocError, Allocator};
use sv_server::{Config, Server};

/// A replay that is under way.
#[derive(Drop)]
pub(crate) struct Run<A: Allocator> {
    pub(crate) server: Server<A>,
    pub(crate) text: Text<A>,
    /// The buffer in which the bytes of a `bytes` line are stored.
    pub(crate) bytes: Vec<u8, A>,
    /// How many lines were executed.
    pub(crate) lines: u64,
    /// How the events are replayed.
    pub(crate) mode: Mode,
    ghost room: { length bytes.items ≡ 65536 },
}

/// Makes a replay with a new server, which has these ports. It has read no line yet.
pub(crate) fn start<A: Allocator + Copy>(
    alloc: A,
    ports: Ports,
    mode: Mode,
) -> Result<Run<A>, AllocError>
    ensures { IfOk result (λ run. StandsFor run.server (config_of ports) []
        × (run.text ≡ nothing_held) × (run.lines ≡ 0) × (run.mode ≡ mode)) }
{
    let config = Config {
        core: ports.core,
        abort: ports.abort,
        clock: 0,
    };
    let text = Text::new(alloc)?;
    let bytes = vec![in alloc; 0; LONGEST_LINE]?;
    Ok(Run {
        server: Server::new(alloc, config)?,
        text,
        bytes,
        lines: 0,
        mode,
    })
}
