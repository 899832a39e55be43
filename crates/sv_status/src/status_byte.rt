//! The status byte and requests for service (IEEE 488.2, 11.2 and 11.3).

ghost use Rattle.std.specs.Prelude.{◌≡◌, ◌≢◌, ◌↔◌, ◌⊎◌, ℕ, true, [], ◌∷◌, List};
ghost use Rattle.std.specs.Int.{bit_at};
ghost use Rattle.sv_status.specs.StatusByte.{StandsFor, ServiceRequested, StatusBit, MasterBit, IsRaised, Master, Request, enable as enable_of};

use std::marker::Model;
use sv_errors::Layer;

/// Bit 6, which isn't a summary bit. It shows the request for service or the master summary.
const REQUEST: u8 = 1 << 6;

/// An act of the status byte.
#[derive(Clone, Copy)]
pub enum StatusAct {
    /// The summary bits and the service request enable become these values.
    Update {
        /// The summary bits. Bit 6 is ignored. The caller always passes 0 in bits 1 and 0.
        bits: u8,
        /// The service request enable; bit 6 is ignored.
        enable: u8,
    },
    /// A poll, which clears the request for service.
    Poll,
}

/// The answer to an act of the status byte.
#[derive(Clone, Copy, Debug)]
pub enum StatusAnswer {
    /// Whether the update raises a request for service.
    Raised(bool),
    /// The status byte as it was before it was polled.
    Status(u8),
}

/// The summary bits, the service request enable, and whether a request for service is pending.
#[derive(Drop)]
pub struct StatusByte {
    bits: u8,
    enable: u8,
    request: bool,
}

impl Model for StatusByte {
    ghost use Rattle.sv_status.specs.StatusByte.{Latches};

    ghost Value = { Latches };

    ghost view = { λ s. record { bits = s.bits; enable = s.enable; request = s.request } };
}

impl StatusByte {
    /// The status byte as it is at power on: no bit is set, no bit is enabled, and no request is
    /// pending.
    pub fn new() -> StatusByte
        ensures { StandsFor result [] }
    {
        StatusByte {
            bits: 0,
            enable: 0,
            request: false,
        }
    }

    /// Sets the summary bits and the service request enable, and returns whether this raises a
    /// request for service. A request is raised if none was pending, and if some summary bit is
    /// both set and enabled after the update, but wasn't both before it.
    pub fn update(&mut self, bits: u8, enable: u8) -> bool
        ensures stands { (acts : List StatusAct) → StandsFor self.old acts
            → StandsFor self.new (StatusAct.Update bits enable ∷ acts) }
        ensures answer { (acts : List StatusAct) → StandsFor self.old acts
            → (result ≡ true) ↔ IsRaised (StatusAct.Update bits enable ∷ acts) }
    {
        let before = asking(self.bits, self.enable);
        let now = asking(bits, enable);
        let reason = (before ^ now) & now != 0;
        let raised = reason & !self.request;
        self.bits = bits;
        self.enable = enable;
        self.request = (reason | self.request) & (now != 0);
        raised
    }

    /// Returns the status byte with the request for service in bit 6, and ends the request (IEEE
    /// 488.2, 11.2.2.1).
    pub fn poll(&mut self) -> u8
        ensures stands { (acts : List StatusAct) → StandsFor self.old acts
            → StandsFor self.new (StatusAct.Poll ∷ acts) }
        ensures answer { (acts : List StatusAct) → StandsFor self.old acts → (k : ℕ)
            → (bit_at result k ≡ 1) ↔ StatusBit k acts }
    {
        let status = with_bit_6(self.bits, self.request);
        self.request = false;
        status
    }

    /// The status byte as `*STB?` returns it, with the master summary in bit 6 (IEEE 488.2,
    /// 11.2.2.2). Nothing changes.
    pub fn status(&self) -> u8
        ensures { (acts : List StatusAct) → StandsFor self.now acts → (k : ℕ)
            → (bit_at result k ≡ 1) ↔ MasterBit k acts }
    {
        with_bit_6(self.bits, self.mss())
    }

    /// The service request enable that was set last, including its bit 6.
    pub fn enable(&self) -> u8
        ensures { (acts : List StatusAct) → StandsFor self.now acts → result ≡ enable_of acts }
    {
        self.enable
    }

    /// The master summary: whether some summary bit is set and enabled. Bit 6 doesn't count as a
    /// summary bit.
    pub fn mss(&self) -> bool
        ensures { (acts : List StatusAct) → StandsFor self.now acts
            → (result ≡ true) ↔ Master acts }
    {
        asking(self.bits, self.enable) != 0
    }

    /// Whether a request for service is pending.
    pub fn rqs(&self) -> bool
        ensures { (acts : List StatusAct) → StandsFor self.now acts
            → (result ≡ true) ↔ Request acts }
    {
        self.request
    }
}

/// The summary bits that are both set and enabled.
fn asking(bits: u8, enable: u8) -> u8
    ensures { (k : ℕ) → (bit_at result k ≡ 1) ↔ ServiceRequested k bits enable }
{
    bits & enable & !REQUEST
}

/// `bits`, with bit 6 set if `stands` is true, and cleared if not.
fn with_bit_6(bits: u8, stands: bool) -> u8
    ensures { (k : ℕ) → (bit_at result k ≡ 1)
        ↔ (((k ≢ 6) × (bit_at bits k ≡ 1)) ⊎ ((k ≡ 6) × (stands ≡ true))) }
{
    let others = bits & !REQUEST;
    if stands { others | REQUEST } else { others }
}

impl Layer for StatusByte {
    ghost use Rattle.sv_status.specs.StatusByte.{StandsFor};
    ghost use Rattle.sv_status.specs.Answered.{StatusGives};

    type Act = StatusAct;

    type Answer = StatusAnswer;

    ghost stands_for = { StandsFor };

    ghost gives = { StatusGives };

    fn act(&mut self, act: StatusAct) -> StatusAnswer {
        match act {
            StatusAct::Update { bits, enable } => StatusAnswer::Raised(self.update(bits, enable)),
            StatusAct::Poll => StatusAnswer::Status(self.poll()),
        }
    }
}
