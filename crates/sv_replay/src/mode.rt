//! How a script is replayed.

/// How the events of a script are replayed.
#[derive(Clone, Copy)]
pub enum Mode {
    /// The lines of the replay are printed.
    Plain,
    /// The steps and their changes are printed in between.
    Explained,
}
