//! Interrupt channels, and the links with service requests enabled (VXI-11 revision 1.0, section
//! B.6: device_enable_srq, create_intr_chan, destroy_intr_chan).

ghost use Rattle.std.specs.Prelude.{◌≡◌, ◌<◌, ◌≤◌, ℕ, List, length, [], ◌∷◌, Some, None, IfOk, IfSome, OnErr, false, true, if◌then◌else◌};
ghost use Rattle.sv_vxi.specs.declared.error_code.ErrorCode.TheVariants.{NoError, InvalidLink, NotEstablished};
ghost use Rattle.sv_vxi.specs.Results.{Plain, plain_result, data_of};
ghost use Rattle.sv_links.specs.Waiting.{Left};
ghost use Rattle.sv_links.specs.Queue.{without};
ghost use Rattle.sv_links.specs.Channels.{ChannelOpened, was_opened};
ghost use Rattle.sv_history.specs.declared.event.Config.{Config as Configured};
ghost use Rattle.sv_history.specs.Act.{DeviceAct, Waited, Channel, wait_acts};
ghost use Rattle.sv_history.specs.CallOutcome.{answer_with, only};
ghost use Rattle.sv_server.specs.Device.Representation.{IsDevice};
ghost use Rattle.sv_history.specs.Interrupts.{has_channel as channel_there, enable_srq as enabled_srq, is_peer as may_call, is_dialing, connect_outcome};
ghost use Rattle.sv_vxi.specs.Arguments.{CreateIntrChan};
ghost use Rattle.sv_vxi.specs.Reading.{plain_arguments};
ghost use Rattle.sv_links.specs.Channels.{ChannelAct, ChannelClosed, ChannelTaken, waiting as channel_bytes};
ghost use Rattle.sv_links.specs.Limits.{max_queued};
ghost use Rattle.sv_links.specs.ChannelRepresentation.{bytes_of};
ghost use Rattle.sv_history.specs.Requests.{HearsOf};
ghost use Rattle.sv_history.specs.CoreChannel.{owns};
ghost use Rattle.sv_server.specs.Device.Inside.Outcome.{GivesResult};

use crate::conn::Conn;
use crate::device::Device;
use crate::device::error_results::{failure, plain};
use std::alloc::Allocator;
use sv_links::{MAX_HANDLE, Peer, Wait};
use sv_vxi::{Args, ErrorCode, VxiResult};

/// Whether an interrupt channel may be connected to this peer: an address in 127.0.0.0/8 and a port
/// of 1 to 65535.
pub fn is_peer(host_addr: u32, host_port: u32) -> bool
    ensures { result ≡ may_call host_addr host_port }
{
    host_addr / 0x0100_0000 == 127 && host_port > 0 && host_port < 65536
}

impl<A: Allocator> Device<A> {
    /// Whether the interrupt channel of a connection is open.
    pub fn has_channel(&self, conn: Conn) -> bool
        ensures { (config : Configured) (acts : List DeviceAct) → IsDevice self.now config acts
            → result ≡ channel_there conn.number acts }
    {
        self.intr.is_open(conn.number)
    }

    /// Executes device_enable_srq of a link. If the connection doesn't own the link, the result is
    /// the error for an invalid link.
    pub(super) fn device_enable_srq(
        &mut self,
        conn: Conn,
        lid: u32,
        enable: bool,
        handle: &[u8],
    ) -> VxiResult<'static>
        ensures ends { (config : Configured) (acts : List DeviceAct) → IsDevice self.old config acts
            → GivesResult result self.new config acts
            (if owns conn.number (Some lid) acts
            then enabled_srq conn.number enable lid handle.now else only (Plain InvalidLink)) }
        ensures short { data_of (plain_result result) ≡ [] }
        ensures waiting { self.new.waiting ≡ self.old.waiting }
    {
        if !self.owns(conn, lid) {
            return plain(ErrorCode::InvalidLink);
        }
        self.enable_srq(conn, enable, lid, handle)
    }

    /// Enables or disables service requests of a link that the connection owns. A handle above 40
    /// bytes gets the error for a wrong parameter, but `read_args` doesn't read a call with one.
    fn enable_srq(
        &mut self,
        conn: Conn,
        enable: bool,
        lid: u32,
        handle: &[u8],
    ) -> VxiResult<'static>
        ensures ends { (config : Configured) (acts : List DeviceAct) → IsDevice self.old config acts
            → owns conn.number (Some lid) acts ≡ true
            → GivesResult result self.new config acts
            (enabled_srq conn.number enable lid handle.now) }
        ensures short { data_of (plain_result result) ≡ [] }
        ensures waiting { self.new.waiting ≡ self.old.waiting }
    {
        if !enable {
            self.intr.disable(lid);
            return plain(ErrorCode::NoError);
        }
        if handle.len() > MAX_HANDLE {
            return plain(ErrorCode::ParameterError);
        }
        self.intr.enable(lid, conn.number, handle);
        plain(ErrorCode::NoError)
    }

    /// destroy_intr_chan: the channel is closed, if one is open.
    pub(super) fn destroy_channel(&mut self, conn: Conn) -> VxiResult<'static>
        ensures ends { (config : Configured) (acts : List DeviceAct) → IsDevice self.old config acts
            → GivesResult result self.new config acts (if channel_there conn.number acts
            then answer_with (Channel (ChannelClosed conn.number) ∷ []) (Plain NoError)
            else only (Plain NotEstablished)) }
        ensures short { data_of (plain_result result) ≡ [] }
        ensures waiting { self.new.waiting ≡ self.old.waiting }
    {
        if self.has_channel(conn) {
            self.close_channel(conn);
            plain(ErrorCode::NoError)
        } else {
            plain(ErrorCode::NotEstablished)
        }
    }

    /// Whether the connection has a suspended create_intr_chan, which waits until its peer is
    /// connected.
    pub fn is_dialing(&self, conn: u8) -> bool
        ensures { (config : Configured) (acts : List DeviceAct) → IsDevice self.now config acts
            → result ≡ is_dialing conn (wait_acts acts) }
    {
        matches!(self.waiting.waits(conn), Some(Wait::Dial))
    }

    /// Ends a suspended create_intr_chan. `ok` says whether the attempt to connect to its peer
    /// succeeded.
    pub(super) fn end_dial(&mut self, conn: Conn, ok: bool, args: &Args<'_>) -> VxiResult<'static>
        ensures ends { (config : Configured) (acts : List DeviceAct)
            → IsDevice self.old config acts → is_dialing conn.number (wait_acts acts) ≡ true
            → GivesResult result self.new config (Waited (Left conn.number) ∷ acts)
            (connect_outcome conn.number ok (plain_arguments args.now)) }
        ensures short { data_of (plain_result result) ≡ [] }
        ensures waiting { self.new.waiting ≡ without conn.number self.old.waiting }
    {
        match *args {
            Args::CreateIntrChan {
                prog_num,
                prog_vers,
                ..
            } => self.end_channel(
                conn,
                ok,
                Peer {
                    prog: prog_num,
                    vers: prog_vers,
                },
            ),
            Args::CreateLink { .. } | Args::OnLink { .. } | Args::DestroyIntrChan => {
                self.give_up_channel(conn);
                failure(args, ErrorCode::NotEstablished)
            }
        }
    }

    /// Ends a suspended create_intr_chan whose peer is `peer`. `ok` says whether the attempt to
    /// connect to the peer succeeded.
    fn end_channel(&mut self, conn: Conn, ok: bool, peer: Peer) -> VxiResult<'static>
        ensures ends { (config : Configured) (acts : List DeviceAct)
            → IsDevice self.old config acts → is_dialing conn.number (wait_acts acts) ≡ true
            → (addr port family : ℕ) → GivesResult result self.new config
            (Waited (Left conn.number) ∷ acts)
            (connect_outcome conn.number ok (CreateIntrChan addr port peer.prog peer.vers family)) }
        ensures short { data_of (plain_result result) ≡ [] }
        ensures waiting { self.new.waiting ≡ without conn.number self.old.waiting }
    {
        if !ok {
            self.give_up_channel(conn);
            return plain(ErrorCode::NotEstablished);
        }
        self.open_channel(conn, peer);
        plain(ErrorCode::NoError)
    }

    /// Opens the channel of a suspended create_intr_chan, and ends the suspension.
    fn open_channel(&mut self, conn: Conn, peer: Peer)
        ensures stands { (config : Configured) (acts : List DeviceAct)
            → IsDevice self.old config acts → is_dialing conn.number (wait_acts acts) ≡ true
            → IsDevice self.new config
            (Channel (ChannelOpened conn.number peer) ∷ Waited (Left conn.number) ∷ acts) }
        ensures waiting { self.new.waiting ≡ without conn.number self.old.waiting }
    {
        self.waiting.leave(conn.number);
        self.intr.open(conn.number, peer);
    }

    /// Ends the suspension of a create_intr_chan whose channel can't be opened, and drops the
    /// channel that was prepared for it.
    fn give_up_channel(&mut self, conn: Conn)
        ensures stands { (config : Configured) (acts : List DeviceAct)
            → IsDevice self.old config acts
            → IsDevice self.new config (Waited (Left conn.number) ∷ acts) }
        ensures waiting { self.new.waiting ≡ without conn.number self.old.waiting }
    {
        self.waiting.leave(conn.number);
        self.intr.cancel(conn.number);
    }

    /// The bytes that wait to be sent on the interrupt channel of a connection; none if the channel
    /// isn't open.
    pub fn channel_waiting(&self, conn: Conn) -> &[u8]
        ensures same { result.now ≡ bytes_of self.now.intr conn.number }
        ensures answer { (config : Configured) (acts : List DeviceAct)
            (channel_log : List ChannelAct)
            → IsDevice self.now config acts → HearsOf acts channel_log
            → result.now ≡ channel_bytes conn.number channel_log }
        ensures bounded { length result.now ≤ max_queued }
    {
        self.intr.waiting(conn.number)
    }

    /// Whether an interrupt channel was ever opened.
    pub fn was_channel_opened(&self) -> bool
        ensures { (config : Configured) (acts : List DeviceAct) (channel_log : List ChannelAct)
            → IsDevice self.now config acts → HearsOf acts channel_log
            → result ≡ was_opened channel_log }
    {
        self.intr.was_opened()
    }

    /// Drops the first `count` of the bytes that wait on the open interrupt channel of a
    /// connection, because the peer took them.
    pub fn channel_took(&mut self, conn: Conn, count: usize)
        requires { count ≤ length (bytes_of self.old.intr conn.number) }
        ensures stands { (config : Configured) (acts : List DeviceAct)
            → IsDevice self.old config acts → channel_there conn.number acts ≡ true
            → IsDevice self.new config (Channel (ChannelTaken conn.number count) ∷ acts) }
        ensures waiting { self.new.waiting ≡ self.old.waiting }
    {
        self.intr.take(conn.number, count);
    }

    /// Closes the interrupt channel of a connection.
    pub fn close_channel(&mut self, conn: Conn)
        ensures stands { (config : Configured) (acts : List DeviceAct)
            → IsDevice self.old config acts
            → IsDevice self.new config (Channel (ChannelClosed conn.number) ∷ acts) }
        ensures waiting { self.new.waiting ≡ self.old.waiting }
    {
        let _ = self.intr.close(conn.number);
    }
}
