//! The error codes (SCPI-1999, volume 2, section 21.8).

ghost use Rattle.std.specs.Prelude.{◌≡◌};
ghost use Rattle.sv_errors.specs.Code.{number_of, text_of, standard_event_of};

/// A command error's bit in the standard event register (IEEE 488.2, 11.5.1).
const COMMAND_ERROR: u8 = 1 << 5;
/// An execution error's bit in the standard event register.
const EXECUTION_ERROR: u8 = 1 << 4;
/// A device-specific error's bit in the standard event register.
const DEVICE_ERROR: u8 = 1 << 3;
/// A query error's bit in the standard event register.
const QUERY_ERROR: u8 = 1 << 2;

/// An error of the instrument, or the value for no error.
#[derive(Clone, Copy, Debug)]
pub enum Code {
    /// Nothing is wrong.
    NoError,
    /// A byte that isn't allowed in a program message.
    InvalidCharacter,
    /// A header or a parameter with wrong syntax.
    SyntaxError,
    /// A parameter of another type than the command accepts.
    DataTypeError,
    /// More parameters than the command accepts.
    ParameterNotAllowed,
    /// Fewer parameters than the command requires.
    MissingParameter,
    /// A mnemonic of more than 12 characters.
    ProgramMnemonicTooLong,
    /// A header that no command has.
    UndefinedHeader,
    /// A byte that isn't allowed at its place in a number.
    InvalidCharacterInNumber,
    /// An exponent whose magnitude is above 32,000.
    ExponentTooLarge,
    /// A mantissa of more than 255 digits, not counting zeros in front.
    TooManyDigits,
    /// A suffix that names no unit of the parameter.
    InvalidSuffix,
    /// A suffix on a parameter that has no unit.
    SuffixNotAllowed,
    /// Character data with a byte that isn't a letter, a digit or an underscore.
    InvalidCharacterData,
    /// An expression with wrong syntax.
    InvalidExpression,
    /// A trigger that came while the instrument didn't wait for a trigger.
    TriggerIgnored,
    /// An initiation while a measurement is in progress.
    InitIgnored,
    /// `READ?` while the trigger source is the bus: no bus trigger can come while the query waits.
    TriggerDeadlock,
    /// A setting that can't be changed in the present state.
    SettingsConflict,
    /// A value outside the parameter's range.
    DataOutOfRange,
    /// A list of more channels than the parameter may have.
    TooMuchData,
    /// A keyword that isn't one of the parameter's choices.
    IllegalParameterValue,
    /// A query for readings when no complete measurement exists.
    DataCorruptOrStale,
    /// The error queue was full, and errors were lost.
    QueueOverflow,
    /// A message longer than the input buffer.
    InputBufferOverrun,
    /// A message that came before the response to the previous message was read.
    QueryInterrupted,
    /// A read although no query was sent.
    QueryUnterminated,
    /// A response longer than the output buffer.
    QueryDeadlocked,
}

impl Code {
    /// The number of the error: 0 for no error, else a negative number.
    pub fn number(self) -> i16
        ensures { result ≡ number_of self }
    {
        match self {
            Code::NoError => 0,
            Code::InvalidCharacter => -101,
            Code::SyntaxError => -102,
            Code::DataTypeError => -104,
            Code::ParameterNotAllowed => -108,
            Code::MissingParameter => -109,
            Code::ProgramMnemonicTooLong => -112,
            Code::UndefinedHeader => -113,
            Code::InvalidCharacterInNumber => -121,
            Code::ExponentTooLarge => -123,
            Code::TooManyDigits => -124,
            Code::InvalidSuffix => -131,
            Code::SuffixNotAllowed => -138,
            Code::InvalidCharacterData => -141,
            Code::InvalidExpression => -171,
            Code::TriggerIgnored => -211,
            Code::InitIgnored => -213,
            Code::TriggerDeadlock => -214,
            Code::SettingsConflict => -221,
            Code::DataOutOfRange => -222,
            Code::TooMuchData => -223,
            Code::IllegalParameterValue => -224,
            Code::DataCorruptOrStale => -230,
            Code::QueueOverflow => -350,
            Code::InputBufferOverrun => -363,
            Code::QueryInterrupted => -410,
            Code::QueryUnterminated => -420,
            Code::QueryDeadlocked => -430,
        }
    }

    /// The bit of the standard event status register for the error (IEEE 488.2, 11.5.1; SCPI-1999,
    /// volume 2, 21.8): 32 (command error) for -1xx; 16 (execution error) for -2xx; 8
    /// (device-specific error) for -3xx; 4 (query error) for -4xx; 0 for no error.
    pub fn standard_event(self) -> u8
        ensures { result ≡ standard_event_of self }
    {
        match self.number().unsigned_abs() / 100 {
            1 => COMMAND_ERROR,
            2 => EXECUTION_ERROR,
            3 => DEVICE_ERROR,
            4 => QUERY_ERROR,
            _ => 0,
        }
    }

    /// The text of the error.
    pub fn text(self) -> &'static str
        ensures { result.now ≡ text_of self }
    {
        match self {
            Code::NoError => "No error",
            Code::InvalidCharacter => "Invalid character",
            Code::SyntaxError => "Syntax error",
            Code::DataTypeError => "Data type error",
            Code::ParameterNotAllowed => "Parameter not allowed",
            Code::MissingParameter => "Missing parameter",
            Code::ProgramMnemonicTooLong => "Program mnemonic too long",
            Code::UndefinedHeader => "Undefined header",
            Code::InvalidCharacterInNumber => "Invalid character in number",
            Code::ExponentTooLarge => "Exponent too large",
            Code::TooManyDigits => "Too many digits",
            Code::InvalidSuffix => "Invalid suffix",
            Code::SuffixNotAllowed => "Suffix not allowed",
            Code::InvalidCharacterData => "Invalid character data",
            Code::InvalidExpression => "Invalid expression",
            Code::TriggerIgnored => "Trigger ignored",
            Code::InitIgnored => "Init ignored",
            Code::TriggerDeadlock => "Trigger deadlock",
            Code::SettingsConflict => "Settings conflict",
            Code::DataOutOfRange => "Data out of range",
            Code::TooMuchData => "Too much data",
            Code::IllegalParameterValue => "Illegal parameter value",
            Code::DataCorruptOrStale => "Data corrupt or stale",
            Code::QueueOverflow => "Queue overflow",
            Code::InputBufferOverrun => "Input buffer overrun",
            Code::QueryInterrupted => "Query INTERRUPTED",
            Code::QueryUnterminated => "Query UNTERMINATED",
            Code::QueryDeadlocked => "Query DEADLOCKED",
        }
    }
}
