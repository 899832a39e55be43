//! Looking at the device without changing it.

ghost use Rattle.std.specs.Prelude.{◌≡◌, ◌+◌, List, map, MatchOption, None, slice_get};
ghost use Rattle.sv_links.specs.Links.{live, holder};
ghost use Rattle.sv_links.specs.Waiting.{waits};
ghost use Rattle.sv_links.specs.Queue.{IsEntry};
ghost use Rattle.sv_links.specs.Channels.{ChannelAct, enabled_links};
ghost use Rattle.sv_history.specs.Requests.{HearsOf};
ghost use Rattle.sv_instrument.specs.Representation.{StandsFor};
ghost use Rattle.sv_history.specs.declared.event.Config.{Config};
ghost use Rattle.sv_history.specs.Act.{DeviceAct, link_acts, wait_acts, instrument_acts, ticks};
ghost use Rattle.sv_server.specs.Device.Representation.{IsDevice};
ghost use Rattle.sv_instrument.specs.Looking.{IsDue, IsNoneDue, is_fire_due as fire_due_after};

use crate::conn::Conn;
use crate::device::Device;
use arrayvec::ArrayVec;
use std::alloc::Allocator;
use sv_explain::{Listed, MOST_LINKS};
use sv_instrument::{Instrument, Step};
use sv_links::{Entry, Link};

impl<A: Allocator> Device<A> {
    /// The instrument.
    pub fn instrument(&self) -> &Instrument<A>
        ensures { (config : Config) (acts : List DeviceAct) → IsDevice self.now config acts
            → StandsFor result.now (instrument_acts acts) }
    {
        &self.instrument
    }

    /// The clock, in milliseconds.
    pub fn time(&self) -> u64
        ensures value { result ≡ self.now.clock }
        ensures answer { (config : Config) (acts : List DeviceAct) → IsDevice self.now config acts
            → result ≡ config.clock + ticks acts }
    {
        self.clock()
    }

    /// The link that holds the lock; `None` if the lock is free.
    pub fn lock_holder(&self) -> Option<u32>
        ensures { (config : Config) (acts : List DeviceAct) → IsDevice self.now config acts
            → result ≡ holder (link_acts acts) }
    {
        self.links.holder()
    }

    /// Makes `found` the list of the links, by rising number.
    pub fn list_links(&self, found: &mut ArrayVec<Listed, MOST_LINKS>)
        ensures { (config : Config) (acts : List DeviceAct) → IsDevice self.now config acts
            → found.new.items
            ≡ map (λ link. record { lid = link.lid; conn = link.conn }) (live (link_acts acts)) }
    {
        found.clear();
        let mut next = self.first_link();
        for _ in 0..MOST_LINKS {
            match next {
                Some(link) => {
                    found.push(Listed {
                        lid: link.lid,
                        conn: link.conn,
                    });
                    next = self.links.after(link.lid);
                }
                None => return,
            }
        }
    }

    /// The link with the lowest number; `None` if there is no link. No history gives a link number
    /// 0, but the contract is about each list of acts.
    fn first_link(&self) -> Option<Link>
        ensures { (config : Config) (acts : List DeviceAct) → IsDevice self.now config acts
            → result ≡ slice_get (live (link_acts acts)) 0 }
    {
        match self.links.owner(0) {
            Some(conn) => Some(Link { lid: 0, conn }),
            None => self.links.after(0),
        }
    }

    /// Makes `found` the list of the links that have service requests enabled, by rising number.
    pub fn list_asking_links(&self, found: &mut ArrayVec<Listed, MOST_LINKS>)
        ensures { (config : Config) (acts : List DeviceAct) (channel_log : List ChannelAct)
            → IsDevice self.now config acts → HearsOf acts channel_log → found.new.items
            ≡ map (λ link. record { lid = link.lid; conn = link.conn })
            (enabled_links channel_log) }
    {
        found.clear();
        for index in 0..32 {
            match self.intr.enabled_link(index) {
                Some((lid, conn)) => found.push(Listed { lid, conn }),
                None => return,
            }
        }
    }

    /// The suspended call of a connection; `None` if the connection has none.
    pub fn waiting_call(&self, conn: Conn) -> Option<Entry>
        ensures { (config : Config) (acts : List DeviceAct) → IsDevice self.now config acts
            → MatchOption result (waits conn.number (wait_acts acts) ≡ None)
            (λ entry. (entry.conn ≡ conn.number) × IsEntry (wait_acts acts) entry) }
    {
        self.waiting.of(conn.number)
    }

    /// Whether an immediate trigger is due.
    pub fn is_fire_due(&self) -> bool
        ensures { (config : Config) (acts : List DeviceAct) → IsDevice self.now config acts
            → result ≡ fire_due_after (instrument_acts acts) }
    {
        self.instrument.is_fire_due()
    }

    /// The step of message exchange that is due; `None` if no step is due.
    pub fn step_due(&self) -> Option<Step<'_>>
        ensures { (config : Config) (acts : List DeviceAct) → IsDevice self.now config acts
            → MatchOption result (IsNoneDue (instrument_acts acts))
            (λ step. IsDue step (instrument_acts acts)) }
    {
        self.instrument.step_due()
    }
}
