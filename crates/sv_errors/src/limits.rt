//! The ranges of the instrument's numbers.

ghost use Rattle.std.specs.Prelude.{◌≡◌};
ghost use Rattle.std.specs.List.{list_all};
ghost use Rattle.sv_errors.specs.Limits.{is_channel as is_channel_number, is_channel_list as is_list_of_channels};

/// How many channels there are; they are numbered from 1.
pub const CHANNELS: usize = 128;
/// How many channels a channel list may have.
pub const LONGEST_LIST: usize = 128;
/// How many scans a measurement may have.
pub const MOST_SCANS: u8 = 16;
/// How many readings a measurement may have: 16 scans of the longest list.
pub const MOST_READINGS: usize = MOST_SCANS as usize * LONGEST_LIST;
/// The largest magnitude of a voltage that can be passed to the instrument, in microvolts: 1,000 V.
pub const MOST_MICROVOLTS: u32 = 1_000_000_000;

/// Whether a channel has this number: 1 to [`CHANNELS`].
pub fn is_channel(number: u64) -> bool
    ensures { result ≡ is_channel_number number }
{
    1 <= number && number <= CHANNELS as u64
}

/// Whether each of these numbers is the number of a channel.
fn are_channels(numbers: &[u8]) -> bool
    ensures { result ≡ list_all is_channel_number numbers.now }
{
    numbers.iter().all(|number| is_channel(u64::from(*number)))
}

/// Whether a list has 1 to [`LONGEST_LIST`] numbers, and each is the number of a channel.
pub fn is_channel_list(channels: &[u8]) -> bool
    ensures { result ≡ is_list_of_channels channels.now }
{
    1 <= channels.len() && (channels.len() <= LONGEST_LIST && are_channels(channels))
}
