//! All layers and their state.

ghost use Rattle.std.specs.Prelude.{◌≡◌, List, [], IfOk};
ghost use Rattle.sv_errors.specs.ErrorQueue.{StandsFor as Queues};
ghost use Rattle.sv_status.specs.Register.{StandsFor as Registers};
ghost use Rattle.sv_status.specs.declared.status_byte.StatusAct.{StatusAct};
ghost use Rattle.sv_scan.specs.Stands.{StandsFor as Scans};
ghost use Rattle.sv_exchange.specs.Contents.{StandsFor as Exchanges};
ghost use Rattle.sv_layers.specs.Act.{Act, exchange_acts, queue_acts, scan_acts};
ghost use Rattle.sv_layers.specs.Filter.{start};
ghost use Rattle.sv_layers.specs.Inside.LayerLogs.{LayerLogs, register_acts};
ghost use Rattle.sv_layers.specs.Inside.Representation.{StandsFor, AllRead, Represents};

use std::alloc::{AllocError, Allocator, Global};
use std::marker::Model;
use sv_errors::ErrorQueue;
use sv_exchange::Exchange;
use sv_scan::Scanner;
use sv_status::{Register, RegisterName, StandardEvent, StatusByte};

/// The layers of the instrument.
#[derive(Drop)]
pub struct Layers<A: Allocator = Global> {
    /// Program text and the response.
    pub(crate) exchange: Exchange<A>,
    /// The error queue.
    pub(crate) errors: ErrorQueue<A>,
    /// The operation status register.
    pub(crate) operation: Register,
    /// The questionable status register.
    pub(crate) questionable: Register,
    /// The limit register, whose summary is a bit of the questionable condition.
    pub(crate) limit: Register,
    /// The standard event status register.
    pub(crate) standard: StandardEvent,
    /// The status byte.
    pub(crate) status: StatusByte,
    /// Inputs, settings, the trigger state and the readings.
    pub(crate) scanner: Scanner<A>,
    /// The service request enable.
    pub(crate) service: u8,
    /// Whether an `*OPC` is pending: it waits for the end of a measurement.
    pub(crate) waits: bool,
    /// How many requests for service were raised since `take_requests` was last called; 255 if
    /// there were more.
    pub(crate) requests: u8,
}

impl<A: Allocator> Model for Layers<A> {
    ghost use Rattle.sv_layers.specs.Inside.Representation.{LayerState};

    ghost Value = { LayerState };

    ghost view = { λ a. record {
      exchange = a.exchange;
      errors = a.errors;
      registers = record {
        operation = a.operation;
        questionable = a.questionable;
        limit = a.limit;
      };
      standard = a.standard;
      status = a.status;
      scanner = a.scanner;
      service = a.service;
      waits = a.waits;
      requests = a.requests;
    } };
}

impl<A: Allocator + Copy> Layers<A> {
    /// Makes all layers as at power on. This allocates all the memory that the layers ever use.
    ///
    /// # Errors
    /// If memory is refused.
    pub fn new(alloc: A) -> Result<Layers<A>, AllocError>
        ensures { IfOk result (λ layers. AllRead layers []) }
    {
        Ok(Layers {
            exchange: Exchange::new(alloc)?,
            errors: ErrorQueue::new(alloc)?,
            operation: Register::new(),
            questionable: Register::new(),
            limit: Register::nested(),
            standard: StandardEvent::new(),
            status: StatusByte::new(),
            scanner: Scanner::new(alloc)?,
            service: 0,
            waits: false,
            requests: 0,
        })
    }
}

impl<A: Allocator> Layers<A> {
    /// Returns the layer of message exchange: program text and the response.
    pub fn exchange(&self) -> &Exchange<A>
        ensures value { result.now ≡ self.now.exchange }
        ensures stands { (log : List Act) → StandsFor self.now log
            → Exchanges result.now (exchange_acts log) }
    {
        &self.exchange
    }

    /// Returns the error queue.
    pub fn errors(&self) -> &ErrorQueue<A>
        ensures { (log : List Act) → StandsFor self.now log → Queues result.now (queue_acts log) }
    {
        &self.errors
    }

    /// Returns the scanner: inputs, settings, the trigger state and the readings.
    pub fn scanner(&self) -> &Scanner<A>
        ensures value { result.now ≡ self.now.scanner }
        ensures stands { (log : List Act) → StandsFor self.now log
            → Scans result.now (scan_acts log) }
    {
        &self.scanner
    }

    /// Returns the status register with this name.
    pub(crate) fn register(&self, name: RegisterName) -> &Register
        ensures { (at : LayerLogs) (status_log : List StatusAct) → Represents self.now at status_log
            → Registers (start name) result.now (register_acts name at) }
    {
        match name {
            RegisterName::Operation => &self.operation,
            RegisterName::Questionable => &self.questionable,
            RegisterName::Limit => &self.limit,
        }
    }
}
