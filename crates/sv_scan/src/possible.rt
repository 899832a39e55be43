//! Which values of a setting are allowed, and when a setting can be changed.

ghost use Rattle.std.specs.Prelude.{◌≡◌};
ghost use Rattle.sv_errors.specs.Limits.{is_within};
ghost use Rattle.sv_scan.specs.Setting.{is_possible as may_have, is_fixed as has_to_wait, least_range as least_range_of};

use crate::setting::Setting;
use sv_errors::{MOST_MICROVOLTS, MOST_SCANS, is_channel, is_channel_list};

/// The ranges, in microvolts: 1, 10 and 100 V.
const RANGES: (i64, i64, i64) = (1_000_000, 10_000_000, 100_000_000);

/// Whether this value of a limit, in microvolts, is allowed: up to 1,000 V in magnitude.
fn is_limit(microvolts: i64) -> bool
    ensures { result ≡ is_within microvolts }
{
    -i64::from(MOST_MICROVOLTS) <= microvolts && microvolts <= i64::from(MOST_MICROVOLTS)
}

/// The smallest range that is at least the wanted voltage, both in microvolts.
pub(crate) fn least_range(wanted: i64) -> i64
    ensures { result ≡ least_range_of wanted }
{
    let (small, middle, large) = RANGES;
    let least = if wanted <= middle { middle } else { large };
    if wanted <= small { small } else { least }
}

/// Whether the value of a setting is allowed.
pub(crate) fn is_possible(setting: &Setting) -> bool
    ensures { result ≡ may_have setting.now }
{
    match setting {
        Setting::List(list) => is_channel_list(list.channels()),
        Setting::Monitor(channel) => is_channel(u64::from(*channel)),
        Setting::Range(wanted) => 0 <= *wanted && *wanted <= RANGES.2,
        Setting::Upper(limit) => is_limit(*limit),
        Setting::Lower(limit) => is_limit(*limit),
        Setting::Limits(_on) => true,
        Setting::Source(_source) => true,
        Setting::Count(scans) => 1 <= *scans && *scans <= MOST_SCANS,
    }
}

/// Whether a setting can only be changed while no measurement is under way.
pub(crate) fn is_fixed(setting: &Setting) -> bool
    ensures { result ≡ has_to_wait setting.now }
{
    matches!(
        setting,
        Setting::List(_) | Setting::Range(_) | Setting::Source(_) | Setting::Count(_)
    )
}
