//! The order of a command, with the value of its parameter.

ghost use Rattle.std.specs.Prelude.{◌≡◌};
ghost use Rattle.sv_layers.specs.declared.change.StatusChange.TheVariants as status;
ghost use Rattle.sv_instrument.specs.declared.command.order.Order.TheVariants as order;
ghost use Rattle.sv_instrument.specs.Command.Order.{set_order};
ghost use Rattle.sv_instrument.specs.Command.Unit.{order_of_unit};

use crate::command::order::Order;
use crate::command::values::{list, list_if_given, mask, monitor, word};
use sv_errors::{Code, MOST_SCANS};
use sv_header::{CommandId, SettingName};
use sv_layers::{RegisterChange, StatusChange};
use sv_lexer::{Token, Unit};
use sv_scan::Setting;
use sv_status::RegisterName;
use sv_value::{boolean, keyword, microvolts, whole};

/// All bits of a mask but bit 6.
const ALL_BUT_SIX: u8 = 191;

/// Returns the order of a command, given the unit with its parameters; or the first error of the
/// parameters.
pub(crate) fn order(command: CommandId, unit: &Unit<'_>) -> Result<Order, Code>
    ensures { result ≡ order_of_unit command unit.now }
{
    let parameters = unit.parameters()?;
    if parameters.count() > command.most_parameters() {
        return Err(Code::ParameterNotAllowed);
    }
    let given = parameters.get(0);
    match command {
        CommandId::Do(action) => Ok(Order::Do(action)),
        CommandId::Ask(question) => Ok(Order::Ask(question)),
        CommandId::Set(name) => match given {
            Some(token) => set(name, &token),
            None => Err(Code::MissingParameter),
        },
        CommandId::Configure => Ok(Order::Configure(list_if_given(given)?)),
        CommandId::Measure => Ok(Order::Measure(list_if_given(given)?)),
    }
}

/// Returns the order that changes a status register.
fn changing(name: RegisterName, change: RegisterChange) -> Order
    ensures { result ≡ order.Apply (status.Register name change) }
{
    Order::Apply(StatusChange::Register(name, change))
}

/// Returns the order that sets a setting to the value of a token, or the error of this value.
fn set(name: SettingName, token: &Token<'_>) -> Result<Order, Code>
    ensures { result ≡ set_order name token.now.kind token.now.text.now }
{
    let setting = match name {
        SettingName::StandardEnable => {
            let enable = mask(token)?;
            return Ok(Order::Apply(StatusChange::EnableStandard(enable)));
        }
        SettingName::ServiceEnable => {
            let enable = mask(token)? & ALL_BUT_SIX;
            return Ok(Order::Apply(StatusChange::EnableService(enable)));
        }
        SettingName::Enable(name) => return Ok(changing(
            name,
            RegisterChange::Enable(word(token)?),
        )),
        SettingName::Rise(name) => return Ok(changing(name, RegisterChange::SetRise(word(token)?))),
        SettingName::Fall(name) => return Ok(changing(name, RegisterChange::SetFall(word(token)?))),
        SettingName::ScanList => Setting::List(list(token)?),
        SettingName::Monitor => Setting::Monitor(monitor(token)?),
        SettingName::Range => Setting::Range(microvolts(token)?),
        SettingName::UpperLimit => Setting::Upper(microvolts(token)?),
        SettingName::LowerLimit => Setting::Lower(microvolts(token)?),
        SettingName::Limits => Setting::Limits(boolean(token)?),
        SettingName::Source => Setting::Source(keyword(token)?),
        SettingName::Count => Setting::Count(whole(token, 1, u16::from(MOST_SCANS))? as u8),
    };
    Ok(Order::Set(setting))
}
