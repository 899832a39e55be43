//! Laws of numbers, voltages and channel lists.

ghost use Rattle.sv_value.specs.Value.{ReadIsChannelList};
ghost use Rattle.sv_value.specs.Spelling.{ReadAsSpelled};
ghost use Rattle.sv_value.specs.PrintedVoltage.{PrintedIsRead};

/// If a voltage of at most 1,000 V in magnitude is printed, and the text is read as a parameter,
/// the result is the same voltage.
pub fn printed_is_read()
    ensures { PrintedIsRead }
{}

/// A text that is read as a channel list without an error gives 1 to 128 channels.
pub fn read_is_channel_list()
    ensures { ReadIsChannelList }
{}

/// A text is read as a decimal number exactly if the standard's syntax allows it, and it is split
/// into the parts that this syntax gives it (IEEE 488.2, 7.7.2 and 7.7.3).
pub fn read_as_spelled()
    ensures { ReadAsSpelled }
{}
