//! The channels that a scan reads.

ghost use Rattle.std.specs.Prelude.{◌≡◌, ◌≤◌, [], ◌∷◌, length};
ghost use Rattle.sv_errors.specs.Limits.{longest_list};

use arrayvec::ArrayVec;
use std::marker::Model;
use sv_errors::LONGEST_LIST;

/// Channels, at most [`LONGEST_LIST`], in the order in which they are read.
#[derive(Clone, Copy)]
pub struct ScanList {
    /// The channels, and zeros after them.
    channels: [u8; LONGEST_LIST],
    /// How many channels there are.
    count: usize,
}

impl Model for ScanList {
    ghost use Rattle.std.specs.Prelude.{◌≡◌, ◌≤◌, ◌-◌, ◌++◌, ℕ, List, length, take, drop, replicate};
    ghost use Rattle.std.proofs.Common.{◌∙◌, ap, sym, arith, length-take-le, take-append-drop};
    ghost use Rattle.sv_errors.specs.Limits.{longest_list};

    ghost Value = { List ℕ };

    ghost view = { λ a. take a.count a.channels };

    ghost invariant = { λ a. (a.count ≤ longest_list) × (length a.channels ≡ longest_list)
        × (drop a.count a.channels ≡ replicate (longest_list - a.count) 0) };

    ghost inverse = { λ channels. record {
      channels = channels ++ replicate (longest_list - length channels) 0;
      count = length channels;
    } };

    ghost inverse_ok = { λ a h i. record {
      channels = (ap (λ (n : ℕ). take a.count a.channels ++ replicate (longest_list - n) 0)
          (length-take-le a.count a.channels (omega (arith, h.0, h.1)))
          ∙ ap (λ (rest : List ℕ). take a.count a.channels ++ rest) (sym h.2)
          ∙ take-append-drop a.count a.channels) i;
      count = length-take-le a.count a.channels (omega (arith, h.0, h.1)) i;
    } };
}

impl ScanList {
    /// The list of these channels.
    pub fn new(channels: ArrayVec<u8, LONGEST_LIST>) -> ScanList
        ensures { result ≡ channels.items }
    {
        let given = channels.as_slice();
        let mut channels = [0; LONGEST_LIST];
        channels[..given.len()].copy_from_slice(given);
        ScanList {
            channels,
            count: given.len(),
        }
    }

    /// The list that has only this channel.
    pub fn of(channel: u8) -> ScanList
        ensures { result ≡ channel ∷ [] }
    {
        let mut channels = [0; LONGEST_LIST];
        channels[0] = channel;
        ScanList { channels, count: 1 }
    }

    /// The channels, in their order.
    pub fn channels(&self) -> &[u8]
        ensures same { result.now ≡ self.now }
        ensures few { length result.now ≤ longest_list }
    {
        &self.channels[..self.count]
    }
}
