//! The ports of a server that is replayed.

/// The ports that a replayed server names in its replies.
#[derive(Clone, Copy, Debug)]
pub struct Ports {
    /// The TCP port of the core channel.
    pub core: u16,
    /// The TCP port of the abort channel.
    pub abort: u16,
}
