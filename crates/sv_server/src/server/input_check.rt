//! Which channels have an input, and which voltages an Input may set.

ghost use Rattle.std.specs.Prelude.{◌≡◌};
ghost use Rattle.sv_history.specs.History.{input_refusal as refusal_of};
ghost use Rattle.sv_server.specs.Server.Inside.Acting.{IsInput};

use sv_errors::{MOST_MICROVOLTS, is_channel};
use sv_history::{Did, Refused};

/// Why the server refuses an Input of this channel and this voltage in microvolts. `BadChannel` if
/// the channel doesn't exist; else `BadInput` if the voltage is beyond plus or minus 1,000,000,000.
/// `None` if the Input isn't refused.
pub fn input_refusal(channel: u8, microvolts: i64) -> Option<Refused>
    ensures { result ≡ refusal_of channel microvolts }
{
    match may_input(channel, microvolts) {
        Ok(_) => None,
        Err(refused) => Some(refused),
    }
}

/// Checks that an Input may set this voltage at this channel; if not, returns the refusal.
pub(crate) fn may_input(channel: u8, microvolts: i64) -> Result<Did, Refused>
    ensures { IsInput channel microvolts result }
{
    if !is_channel(u64::from(channel)) {
        return Err(Refused::BadChannel);
    }
    let most = i64::from(MOST_MICROVOLTS);
    if microvolts < -most || microvolts > most {
        return Err(Refused::BadInput);
    }
    Ok(Did::Done)
}
