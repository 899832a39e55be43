//! A value that is told, and its text.

ghost use Rattle.std.specs.Prelude.{◌≡◌, true};
ghost use Rattle.sv_explain.specs.Value.{same_value, word_text};

/// A word that is told.
#[derive(Clone, Copy, PartialEq, Eq)]
pub enum Word {
    /// There is no such value.
    None,
    /// No measurement is under way.
    Idle,
    /// A scan waits for its trigger.
    Waiting,
    /// A scan is under way.
    Scanning,
    /// Triggers are immediate.
    Immediate,
    /// Triggers come from the controller.
    Bus,
    /// Triggers come from outside.
    External,
    /// The held unit answers nothing.
    Nothing,
    /// The held unit answers 1.
    One,
    /// The held unit answers with readings.
    Readings,
    /// The message has ended, or is too long.
    Ended,
    /// A connection of the core channel.
    Core,
    /// A connection of the abort channel.
    Abort,
    /// A connection of the port mapper.
    Portmap,
    /// A connection that isn't open.
    Closed,
    /// A call waits for the lock.
    Lock,
    /// A write waits until the device accepts it.
    Input,
    /// A read waits until the device answers it.
    Response,
    /// A create_intr_chan waits for its peer.
    Dial,
    /// A voltage above the range.
    Over,
    /// A voltage below the negative of the range.
    Under,
}

/// A value that is told.
#[derive(Clone, Copy)]
pub enum Value {
    /// A number.
    Number(u64),
    /// A voltage, in microvolts.
    Voltage(i64),
    /// A word.
    Word(Word),
    /// So many of so many.
    Share(u8, u8),
    /// A suspended call: what it waits for, the link that it names, and the time of the clock at
    /// which it times out, in milliseconds.
    Call(Word, Option<u64>, Option<u64>),
    /// A reading: its number, its channel, and the voltage in microvolts.
    Reading(u16, u8, i64),
    /// A reading that is an overload: its number, its channel, and whether it is over or under.
    Overload(u16, u8, Word),
}

impl Word {
    /// The word's text.
    pub(crate) fn text(self) -> &'static [u8]
        ensures { result.now ≡ word_text self }
    {
        match self {
            Word::None => b"none",
            Word::Idle => b"idle",
            Word::Waiting => b"waiting",
            Word::Scanning => b"scanning",
            Word::Immediate => b"imm",
            Word::Bus => b"bus",
            Word::External => b"ext",
            Word::Nothing => b"nothing",
            Word::One => b"one",
            Word::Readings => b"readings",
            Word::Ended => b"ended",
            Word::Core => b"core",
            Word::Abort => b"abort",
            Word::Portmap => b"portmap",
            Word::Closed => b"closed",
            Word::Lock => b"lock",
            Word::Input => b"input",
            Word::Response => b"response",
            Word::Dial => b"dial",
            Word::Over => b"+over",
            Word::Under => b"-over",
        }
    }
}

impl Value {
    /// Whether two values are the same.
    #[inline(always)]
    pub(crate) fn is_same(self, other: Value) -> bool
        ensures value { result ≡ same_value self other }
        ensures same { result ≡ true → self ≡ other }
    {
        match (self, other) {
            (Value::Number(a), Value::Number(b)) => a == b,
            (Value::Voltage(a), Value::Voltage(b)) => a == b,
            (Value::Word(a), Value::Word(b)) => a == b,
            (Value::Share(a, b), Value::Share(c, d)) => a == c && b == d,
            (Value::Call(a, b, c), Value::Call(d, e, f)) => { a == d && b == e && c == f }
            (Value::Reading(a, b, c), Value::Reading(d, e, f)) => a == d && b == e && c == f,
            (Value::Overload(a, b, c), Value::Overload(d, e, f)) => { a == d && b == e && c == f }
            _ => false,
        }
    }
}
