//! What a record asks for. The header of the record is checked first. If the header passes this
//! check, the record is read as a call of the program that the record's connection serves.

ghost use Rattle.std.specs.Prelude.{◌≡◌, Option, Ok, None, option_map, true};
ghost use Rattle.sv_rpc.specs.Call.{plain_call, call_at};
ghost use Rattle.sv_vxi.specs.Arguments.{core_calls, abort_calls, is_one_of};
ghost use Rattle.sv_vxi.specs.Reading.{arguments_at};
ghost use Rattle.sv_history.specs.Request.{program_of as program_for, core_request as core_request_for, abort_request as abort_request_for, procedure_request as procedure_request_for, call_request as call_request_for, request_of as request_for, Decided, core_call as core_call_in_record};
ghost use Rattle.sv_server.specs.Connection.Inside.Requests.{plain_request, plain_core_call, xid_of};

use sv_history::Role;
use sv_rpc::{Call, CallFault, Reply, read_call};
use sv_vxi::procedure::{
    CREATE_INTR_CHAN, CREATE_LINK, DESTROY_INTR_CHAN, DESTROY_LINK, DEVICE_ABORT, DEVICE_CLEAR,
    DEVICE_DOCMD, DEVICE_ENABLE_SRQ, DEVICE_LOCAL, DEVICE_LOCK, DEVICE_READ, DEVICE_READSTB,
    DEVICE_REMOTE, DEVICE_TRIGGER, DEVICE_UNLOCK, DEVICE_WRITE,
};
use sv_vxi::{Args, read_args};

/// The number of the null procedure, which every program has.
const NULL: u32 = 0;
/// The number of the port mapper's procedure GETPORT.
const GETPORT: u32 = 3;

/// A call of the core channel.
#[derive(Clone, Copy)]
pub struct CoreCall<'a> {
    /// The xid of the call.
    pub xid: u32,
    /// The arguments of the call.
    pub args: Args<'a>,
}

/// What a record asks for.
#[derive(Clone, Copy)]
pub enum Request<'a> {
    /// Nothing: the record isn't a call.
    NoCall,
    /// A call whose reply follows from the call's header or arguments; the device isn't used.
    Decided {
        /// The xid of the call.
        xid: u32,
        /// The reply.
        reply: Reply,
    },
    /// A call of the core channel.
    Core(CoreCall<'a>),
    /// A call of device_abort.
    Abort {
        /// The xid of the call.
        xid: u32,
        /// The link whose suspended call is to be aborted.
        lid: i32,
    },
    /// A call of the port mapper's GETPORT.
    Port {
        /// The xid of the call.
        xid: u32,
        /// The arguments of the call, still encoded.
        args: &'a [u8],
    },
}

impl Request<'_> {
    /// The xid of the call; 0 if the record isn't a call.
    pub fn xid(&self) -> u32
        ensures { result ≡ xid_of (plain_request self.now) }
    {
        match *self {
            Request::NoCall => 0,
            Request::Decided { xid, .. } => xid,
            Request::Core(call) => call.xid,
            Request::Abort { xid, .. } => xid,
            Request::Port { xid, .. } => xid,
        }
    }
}

/// The number of the RPC program that a connection of this role serves.
fn program_of(role: Role) -> u32
    ensures { result ≡ (program_for role).0 }
{
    match role {
        Role::Core => 0x0607AF,
        Role::Abort => 0x0607B0,
        Role::Portmap => 100_000,
    }
}

/// The version of the RPC program that a connection of this role serves.
fn version_of(role: Role) -> u32
    ensures { result ≡ (program_for role).1 }
{
    match role {
        Role::Core | Role::Abort => 1,
        Role::Portmap => 2,
    }
}

/// Whether the program of this role has this procedure. False for the null procedure.
fn has_procedure(role: Role, proc: u32) -> bool
    ensures { result ≡ is_one_of (program_for role).2 proc }
{
    match role {
        Role::Core => matches!(
            proc,
            CREATE_LINK
                | DEVICE_WRITE
                | DEVICE_READ
                | DEVICE_READSTB
                | DEVICE_TRIGGER
                | DEVICE_CLEAR
                | DEVICE_REMOTE
                | DEVICE_LOCAL
                | DEVICE_LOCK
                | DEVICE_UNLOCK
                | DEVICE_ENABLE_SRQ
                | DEVICE_DOCMD
                | DESTROY_LINK
                | CREATE_INTR_CHAN
                | DESTROY_INTR_CHAN
        ),
        Role::Abort => proc == DEVICE_ABORT,
        Role::Portmap => proc == GETPORT,
    }
}

/// What a call of the abort channel asks for.
fn abort_request<'a>(call: &Call<'a>) -> Request<'a>
    requires { is_one_of abort_calls call.now.proc ≡ true }
    ensures { plain_request result
        ≡ abort_request_for call.now.xid (arguments_at call.now.proc call.now.args.now) }
{
    match read_args(call.proc, call.args) {
        Ok(Args::OnLink { lid, .. }) => Request::Abort { xid: call.xid, lid },
        Ok(_) | Err(_) => Request::Decided {
            xid: call.xid,
            reply: Reply::GarbageArgs,
        },
    }
}

/// What a call asks for. The program that this role serves must have the procedure of the call.
fn procedure_request<'a>(role: Role, call: &Call<'a>) -> Request<'a>
    requires { is_one_of (program_for role).2 call.now.proc ≡ true }
    ensures { plain_request result ≡ procedure_request_for role (plain_call call.now) }
{
    match role {
        Role::Core => match read_args(call.proc, call.args) {
            Ok(args) => Request::Core(CoreCall {
                xid: call.xid,
                args,
            }),
            Err(_) => decided(call, Reply::GarbageArgs),
        },
        Role::Abort => abort_request(call),
        Role::Portmap => Request::Port {
            xid: call.xid,
            args: call.args,
        },
    }
}

/// Makes the request of a call whose reply follows from the call's header; the device isn't used.
fn decided<'a>(call: &Call<'a>, reply: Reply) -> Request<'a>
    ensures { plain_request result ≡ Decided call.now.xid reply }
{
    Request::Decided {
        xid: call.xid,
        reply,
    }
}

/// What a call asks for. The first of these that applies decides the reply: the call isn't for the
/// role's program; it isn't for this program's version; it is for the null procedure; it is for an
/// unknown procedure. If none applies, the procedure decides what the call asks for.
fn call_request<'a>(role: Role, call: &Call<'a>) -> Request<'a>
    ensures { plain_request result ≡ call_request_for role (plain_call call.now) }
{
    if call.prog != program_of(role) {
        return decided(call, Reply::ProgUnavail);
    }
    let version = version_of(role);
    if call.vers != version {
        return decided(
            call,
            Reply::ProgMismatch {
                low: version,
                high: version,
            },
        );
    }
    if call.proc == NULL {
        return decided(call, Reply::Success);
    }
    if !has_procedure(role, call.proc) {
        return decided(call, Reply::ProcUnavail);
    }
    procedure_request(role, call)
}

/// What a record asks for on a connection of this role.
pub fn request_of(role: Role, bytes: &[u8]) -> Request<'_>
    ensures { plain_request result ≡ request_for role (call_at bytes.now) }
{
    match read_call(bytes) {
        Ok(call) => call_request(role, &call),
        Err(CallFault::BadHeader) => Request::NoCall,
        Err(CallFault::Version(xid)) => Request::Decided {
            xid,
            reply: Reply::Mismatch,
        },
    }
}

/// Reads a record as a call of the core channel; `None` if the record isn't a call of the core
/// channel.
pub fn core_call(bytes: &[u8]) -> Option<CoreCall<'_>>
    ensures { option_map plain_core_call result ≡ core_call_in_record bytes.now }
{
    match request_of(Role::Core, bytes) {
        Request::Core(call) => Some(call),
        Request::NoCall | Request::Decided { .. } | Request::Abort { .. } | Request::Port { .. } =>
            None,
    }
}
