//! The instrument and its state.

ghost use Rattle.std.specs.Prelude.{[], IfOk};
ghost use Rattle.sv_instrument.specs.Representation.{StandsFor};

use std::alloc::{AllocError, Allocator, Global};
use std::marker::Model;
use sv_exchange::MAX_RESPONSE;
use sv_header::{Path, Table};
use sv_layers::{Awaited, Layers};

/// A simulated instrument.
#[derive(Drop)]
pub struct Instrument<A: Allocator = Global> {
    /// The table in which the command of a header is looked up.
    pub(crate) table: Table<A>,
    /// The path relative to which the next unit is read (SCPI's compound headers).
    pub(crate) path: Path,
    /// Message exchange, error queue, scanner and status registers.
    pub(crate) layers: Layers<A>,
    /// What the held unit will answer when the measurement ends; `None` if no unit is held.
    pub(crate) held: Option<Awaited>,
    /// The buffer into which the answer of a unit is written. It has room for the longest response.
    pub(crate) answer: Vec<u8, A>,
}

impl<A: Allocator> Model for Instrument<A> {
    ghost use Rattle.sv_instrument.specs.Representation.{Kept};

    ghost Value = { Kept };

    ghost use Rattle.std.specs.Prelude.{◌≤◌, vec_capacity};
    ghost use Rattle.sv_exchange.specs.Limits.{max_response};
    ghost use Rattle.sv_instrument.specs.Representation.{IsHeldRight};

    ghost view = { λ a. record { layers = a.layers; held = a.held; path = a.path } };

    ghost invariant = { λ a. (max_response ≤ vec_capacity a.answer) × IsHeldRight a.held a.layers };
}

impl<A: Allocator + Copy> Instrument<A> {
    /// Makes the instrument as at power on. This allocates all the memory that the instrument ever
    /// uses.
    ///
    /// # Errors
    /// If memory is refused.
    pub fn new(alloc: A) -> Result<Instrument<A>, AllocError>
        ensures { IfOk result (λ instrument. StandsFor instrument []) }
    {
        let answer = Vec::with_capacity(alloc, MAX_RESPONSE)?;
        let table = Table::new(alloc)?;
        let layers = Layers::new(alloc)?;
        Ok(Instrument {
            table,
            path: Path::root(),
            layers,
            held: None,
            answer,
        })
    }
}
