//! What `scanvolt explain` prints: a line for each event, for each step that follows it, and for
//! each value that changed. Also all values of a server at one moment. No server is in here.
//! Allocates nothing.
#![tactic(auto)]

mod changes;
mod lines;
mod links;
mod shown;
mod step;
mod text;
mod value;

pub use changes::{put_conn, put_statuses};
pub use shown::{
    CONNECTIONS, CallShown, ConnShown, ExchangeShown, LinksShown, Listed, MOST_LINKS,
    MeasurementShown, MessageShown, NEVER_OPENED, RegisterShown, ScannerShown, SettingsShown,
    Shown, StatusShown, StatusesShown,
};
pub use step::{Due, put_call, put_end, put_head, put_step};
pub use value::{Value, Word};
