//! Laws of the layers: after the acts of a log, each layer has the state that the standards
//! require.

ghost use Rattle.sv_layers.specs.Laws.{OwnActs, SameWords, SameEvents, SameWaiting, SameCompletion, SameStandardEvents, SameEnable, SameSummaries, OneAccount, SameRequests, SameRaising, SameStatus};

/// The log of the layer of message exchange has exactly those acts of the instrument's log that are
/// acts of message exchange. The same holds for the error queue and for the scanner. The layers'
/// service request enable is the one that was set last.
pub fn own_acts()
    ensures { OwnActs }
{}

/// Each status register of the layers has the condition, the filters and the enable that SCPI-1999,
/// chapter 20, prescribes for the acts of the instrument's log.
pub fn same_words()
    ensures { SameWords }
{}

/// Each event register of the layers has exactly those bits set that SCPI-1999, chapter 20,
/// prescribes for the acts of the instrument's log.
pub fn same_events()
    ensures { SameEvents }
{}

/// The layers have an `*OPC` pending exactly if IEEE 488.2, 12.5.2, says so for the acts of the
/// instrument's log.
pub fn same_waiting()
    ensures { SameWaiting }
{}

/// At an act, the layers set the operation complete bit exactly if IEEE 488.2, 12.5.2, says that an
/// `*OPC` completes at this act, given the instrument's log up to the act.
pub fn same_completion()
    ensures { SameCompletion }
{}

/// The layers have exactly those standard events set that IEEE 488.2, 11.5.1, prescribes for the
/// acts of the instrument's log.
pub fn same_standard_events()
    ensures { SameStandardEvents }
{}

/// The layers' enable of the standard events is the one that was set last in the instrument's log
/// (IEEE 488.2, 11.5.1).
pub fn same_enable()
    ensures { SameEnable }
{}

/// The layers' status byte has the summary bits that IEEE 488.2, 11.2.1, and SCPI-1999, chapter 20,
/// prescribe for the acts of the instrument's log.
pub fn same_summaries()
    ensures { SameSummaries }
{}

/// Each log of the instrument determines exactly one list of acts of the status byte.
pub fn one_account()
    ensures { OneAccount }
{}

/// The layers' status byte has a request for service pending exactly if IEEE 488.2, 11.3, says so
/// for the acts of the instrument's log.
pub fn same_requests()
    ensures { SameRequests }
{}

/// The layers' status byte raises a request for service at an act exactly if IEEE 488.2, 11.3, says
/// so, given the instrument's log up to this act.
pub fn same_raising()
    ensures { SameRaising }
{}

/// The status bytes that a poll and `*STB?` return are those that IEEE 488.2, 11.2.2, prescribes
/// for the acts of the instrument's log.
pub fn same_status()
    ensures { SameStatus }
{}
