//! The table of commands: the nodes of the tree of headers in their order, in several arrays.

use crate::branch::Branch;
use crate::command::{Action, CommandId, Question, SettingName};
use crate::pattern::Node;
use sv_status::RegisterName;

/// How many nodes the tree has.
pub(crate) const NODES: usize = COMMON_NODES
    + SYSTEM_NODES.len()
    + STATUS_NODES.len()
    + SETTINGS.len()
    + MEASURING.len();

/// How many nodes of the tree belong to common commands. These nodes come first.
pub(crate) const COMMON_NODES: usize = COMMON_COMMANDS.len();

/// A mnemonic in its short and its long form.
macro_rules! node {
    ($short:literal, $long:literal) => {
        Node {
            short: $short,
            long: $long,
            optional: false,
        }
    };
}

/// A mnemonic in its short and its long form, which a header can omit.
macro_rules! maybe {
    ($short:literal, $long:literal) => {
        Node {
            short: $short,
            long: $long,
            optional: true,
        }
    };
}

/// The nodes of a tree, as an array: after each node the nodes below it, which are in braces.
/// `node` and `maybe` begin a node. What follows says which headers end there: that of an action,
/// of a query, or of a setting with its query; `ends` names the commands of the header without a
/// question mark and of the one with it. `register` stands for the nodes of a status register.
macro_rules! tree {
    ([$($done:expr,)*]) => {
        [$($done,)*]
    };
    ([$($done:expr,)*] register $name:ident; $($rest:tt)*) => {
        tree!([$($done,)*]
            maybe(b"EVEN", b"EVENT") asks Question::Events(RegisterName::$name);
            node(b"COND", b"CONDITION") asks Question::Condition(RegisterName::$name);
            node(b"ENAB", b"ENABLE") sets SettingName::Enable(RegisterName::$name);
            node(b"PTR", b"PTRANSITION") sets SettingName::Rise(RegisterName::$name);
            node(b"NTR", b"NTRANSITION") sets SettingName::Fall(RegisterName::$name);
            $($rest)*)
    };
    ([$($done:expr,)*] $node:ident $forms:tt { $($below:tt)* } $($rest:tt)*) => {
        tree!([$($done,)* Branch {
            node: $node! $forms,
            below: count!($($below)*),
            plain: None,
            query: None,
        },] $($below)* $($rest)*)
    };
    ([$($done:expr,)*] $node:ident $forms:tt does $action:expr; $($rest:tt)*) => {
        tree!([$($done,)*] $node $forms ends Some(CommandId::Do($action)), None; $($rest)*)
    };
    ([$($done:expr,)*] $node:ident $forms:tt asks $question:expr; $($rest:tt)*) => {
        tree!([$($done,)*] $node $forms ends None, Some(CommandId::Ask($question)); $($rest)*)
    };
    ([$($done:expr,)*] $node:ident $forms:tt sets $name:expr; $($rest:tt)*) => {
        tree!([$($done,)*] $node $forms
            ends Some(CommandId::Set($name)), Some(CommandId::Ask(Question::Value($name)));
            $($rest)*)
    };
    ([$($done:expr,)*] $node:ident $forms:tt ends $plain:expr, $query:expr; $($rest:tt)*) => {
        tree!([$($done,)* Branch {
            node: $node! $forms,
            below: 0,
            plain: $plain,
            query: $query,
        },] $($rest)*)
    };
}

/// How many nodes a tree has, at any depth.
macro_rules! count {
    () => {
        0
    };
    (register $name:ident; $($rest:tt)*) => {
        5 + count!($($rest)*)
    };
    ($node:ident $forms:tt { $($below:tt)* } $($rest:tt)*) => {
        1 + count!($($below)*) + count!($($rest)*)
    };
    ($node:ident $forms:tt $how:ident $first:expr; $($rest:tt)*) => {
        1 + count!($($rest)*)
    };
    ($node:ident $forms:tt ends $plain:expr, $query:expr; $($rest:tt)*) => {
        1 + count!($($rest)*)
    };
}

/// The nodes of the common commands (IEEE 488.2, chapter 10).
pub(crate) const COMMON_COMMANDS: &[Branch] = &tree!([]
    node(b"CLS", b"CLS") does Action::ClearStatus;
    node(b"ESE", b"ESE") sets SettingName::StandardEnable;
    node(b"ESR", b"ESR") asks Question::StandardEvents;
    node(b"IDN", b"IDN") asks Question::Identification;
    node(b"OPC", b"OPC")
        ends Some(CommandId::Do(Action::TellComplete)), Some(CommandId::Do(Action::WaitAndTell));
    node(b"RST", b"RST") does Action::Reset;
    node(b"SRE", b"SRE") sets SettingName::ServiceEnable;
    node(b"STB", b"STB") asks Question::StatusByte;
    node(b"TRG", b"TRG") does Action::Trigger;
    node(b"TST", b"TST") asks Question::SelfTest;
    node(b"WAI", b"WAI") does Action::Wait;
);

/// The nodes of SYSTem (SCPI-1999, volume 2).
pub(crate) const SYSTEM_NODES: &[Branch] = &tree!([]
    node(b"SYST", b"SYSTEM") {
        node(b"ERR", b"ERROR") {
            maybe(b"NEXT", b"NEXT") asks Question::Error;
            node(b"COUN", b"COUNT") asks Question::ErrorCount;
        }
        node(b"VERS", b"VERSION") asks Question::Version;
    }
);

/// The nodes of STATus and its registers (SCPI-1999, volume 2). A nested register stands below the
/// register above it.
pub(crate) const STATUS_NODES: &[Branch] = &tree!([]
    node(b"STAT", b"STATUS") {
        node(b"PRES", b"PRESET") does Action::Preset;
        node(b"OPER", b"OPERATION") {
            register Operation;
        }
        node(b"QUES", b"QUESTIONABLE") {
            register Questionable;
            node(b"LIM", b"LIMIT") {
                register Limit;
            }
        }
    }
);

/// The nodes of the settings that say what is measured, and how (SCPI-1999, volume 2).
pub(crate) const SETTINGS: &[Branch] = &tree!([]
    node(b"ROUT", b"ROUTE") {
        node(b"SCAN", b"SCAN") sets SettingName::ScanList;
        node(b"MON", b"MONITOR") sets SettingName::Monitor;
    }
    maybe(b"SENS", b"SENSE") {
        node(b"VOLT", b"VOLTAGE") {
            maybe(b"DC", b"DC") {
                node(b"RANG", b"RANGE") {
                    maybe(b"UPP", b"UPPER") sets SettingName::Range;
                }
            }
        }
    }
    node(b"CALC", b"CALCULATE") {
        node(b"LIM", b"LIMIT") {
            node(b"UPP", b"UPPER") sets SettingName::UpperLimit;
            node(b"LOW", b"LOWER") sets SettingName::LowerLimit;
            node(b"STAT", b"STATE") sets SettingName::Limits;
        }
    }
    node(b"TRIG", b"TRIGGER") {
        node(b"SOUR", b"SOURCE") sets SettingName::Source;
        node(b"COUN", b"COUNT") sets SettingName::Count;
    }
);

/// The nodes of the commands that measure (SCPI-1999, volume 2).
pub(crate) const MEASURING: &[Branch] = &tree!([]
    node(b"INIT", b"INITIATE") {
        maybe(b"IMM", b"IMMEDIATE") does Action::Initiate;
    }
    node(b"ABOR", b"ABORT") does Action::Abort;
    node(b"FETC", b"FETCH") asks Question::Readings;
    node(b"READ", b"READ") ends None, Some(CommandId::Do(Action::Read));
    node(b"CONF", b"CONFIGURE") {
        node(b"VOLT", b"VOLTAGE") {
            maybe(b"DC", b"DC") ends Some(CommandId::Configure), None;
        }
    }
    node(b"MEAS", b"MEASURE") {
        node(b"VOLT", b"VOLTAGE") {
            maybe(b"DC", b"DC") ends None, Some(CommandId::Measure);
        }
    }
);
