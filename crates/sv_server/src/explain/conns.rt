//! What is told of the connections.

ghost use Rattle.std.specs.Prelude.{◌≡◌, ◌<◌, ◌≤◌, ℕ, List, length, slice_index_or, MatchOption, None, Some};
ghost use Rattle.sv_print.specs.Printed.{Prints};
ghost use Rattle.sv_history.specs.declared.event.Config.{Config};
ghost use Rattle.sv_history.specs.Act.{Act};
ghost use Rattle.sv_server.specs.Server.State.{Represents};
ghost use Rattle.sv_explain.specs.Shown.{wait_word, call_of, role_word, IsConn, AreConns, never_opened};
ghost use Rattle.sv_explain.specs.Changes.{conn_lines, conns_lines};
ghost use Rattle.sv_server.specs.Explain.Inside.Conns.{IsPut};

use crate::conn::Conn;
use crate::server::Server;
use arrayvec::ArrayVec;
use std::alloc::Allocator;
use std::io::Write;
use sv_explain::{CONNECTIONS, CallShown, ConnShown, NEVER_OPENED, Word, put_conn};
use sv_history::{Port, Role};
use sv_links::{Entry, Wait};

/// The word of what a suspended call waits for.
fn wait_word(wait: Wait) -> Word
    ensures { result ≡ wait_word wait }
{
    match wait {
        Wait::Lock => Word::Lock,
        Wait::Input => Word::Input,
        Wait::Response => Word::Response,
        Wait::Dial => Word::Dial,
    }
}

/// What is told of a suspended call.
fn call_shown(entry: Option<Entry>) -> Option<CallShown>
    ensures { MatchOption entry (result ≡ None)
        (λ entry. result ≡ call_of (Some entry.wait) entry.lid entry.deadline) }
{
    match entry {
        Some(entry) => Some(CallShown {
            wait: wait_word(entry.wait),
            lid: entry.lid,
            deadline: entry.deadline,
        }),
        None => None,
    }
}

/// The word of a connection's role.
fn role_word(role: Option<Role>) -> Word
    ensures { result ≡ role_word role }
{
    match role {
        None => Word::Closed,
        Some(Role::Core) => Word::Core,
        Some(Role::Abort) => Word::Abort,
        Some(Role::Portmap) => Word::Portmap,
    }
}

/// Puts what is told of a connection into the list, and returns what the list told of it before.
/// The connections that the list leaves out were never opened.
fn put_in(conns: &mut ArrayVec<ConnShown, CONNECTIONS>, conn: Conn, new: ConnShown) -> ConnShown
    requires { conn.number ≤ length conns.old.items }
    ensures before { result ≡ slice_index_or conns.old.items conn.number never_opened }
    ensures put { IsPut conn.number new conns.old.items conns.new.items }
{
    let place = conn.index();
    if place < conns.len() {
        let before = conns[place];
        conns[place] = new;
        return before;
    }
    conns.push(new);
    NEVER_OPENED
}

impl<A: Allocator> Server<A> {
    /// Makes `found` what is told of the connections.
    pub(crate) fn list_conns(&self, found: &mut ArrayVec<ConnShown, CONNECTIONS>)
        ensures { (config : Config) (log : List Act) → Represents self.now config log
            → AreConns found.new.items log }
    {
        found.clear();
        for number in 0..self.conns_to_tell() {
            if let Some(conn) = Conn::new(number) {
                put_in(found, conn, self.conn_shown(conn));
            }
        }
    }

    /// Writes what changed of the connections, and updates `shown`.
    pub(crate) fn tell_conns<W: Write>(
        &self,
        shown: &mut ArrayVec<ConnShown, CONNECTIONS>,
        writer: &mut W,
        failed: &mut bool,
    )
        ensures { (config : Config) (log : List Act) → Represents self.now config log
            → AreConns shown.new.items log
            × Prints (W.contents writer.old) failed.old (W.contents writer.new) failed.new
            (conns_lines shown.old.items shown.new.items) }
    {
        let most = self.conns_to_tell().max(shown.len() as u8);
        for number in 0..most {
            self.tell_conn(number, shown, writer, failed);
        }
    }

    /// Writes what changed of a connection, and updates `shown`.
    fn tell_conn<W: Write>(
        &self,
        number: u8,
        shown: &mut ArrayVec<ConnShown, CONNECTIONS>,
        writer: &mut W,
        failed: &mut bool,
    )
        requires within { number < 16 }
        requires reached { number ≤ length shown.old.items }
        ensures { (new : ConnShown) × IsPut number new shown.old.items shown.new.items
            × Prints (W.contents writer.old) failed.old (W.contents writer.new) failed.new
            (conn_lines number (slice_index_or shown.old.items number never_opened) new)
            × ((config : Config) (log : List Act) → Represents self.now config log
            → IsConn number new log) }
    {
        if let Some(conn) = Conn::new(number) {
            let new = self.conn_shown(conn);
            let old = put_in(shown, conn, new);
            put_conn(writer, failed, number, old, new);
        }
    }

    /// How many connections are looked at: those up to the last that was opened; all sixteen, if a
    /// connection that was never opened has an interrupt channel. No history gives it one, but the
    /// contract is about each log.
    fn conns_to_tell(&self) -> u8
        ensures never { (config : Config) (log : List Act) → Represents self.now config log
            → (c : ℕ) → result ≤ c → c < 16 → IsConn c never_opened log }
        ensures bounded { result ≤ 16 }
    {
        for number in self.connections_used..16 {
            if self.has_channel(number) {
                return 16;
            }
        }
        self.connections_used.min(16)
    }

    /// What is told of a connection.
    pub(crate) fn conn_shown(&self, conn: Conn) -> ConnShown
        ensures { (config : Config) (log : List Act) → Represents self.now config log
            → IsConn conn.number result log }
    {
        let call = call_shown(self.device.waiting_call(conn));
        let has_channel = self.device.has_channel(conn);
        let requests = self.outgoing(Port::Intr(conn.number)).len() as u32;
        match self.connection(conn.number) {
            Some(connection) => ConnShown {
                role: role_word(connection.role()),
                faulted: connection.is_faulted(),
                call,
                output: connection.waiting().len() as u32,
                has_channel,
                requests,
            },
            None => ConnShown {
                role: Word::Closed,
                faulted: false,
                call,
                output: 0,
                has_channel,
                requests,
            },
        }
    }
}
