//! The commands of the applications, as docs/COMMANDS.md lists them.
ghost use Rattle.std.specs.Prelude.{◌≡◌, true, map};
ghost use Rattle.telecommands.specs.Commands.{are_good, are_distinct};
ghost use Rattle.telecommands.specs.Dictionary.{placed, dictionary};

use crate::command::Command;
use packet_forms::message_ids::{
    CS_COMMAND, CS_REQUEST, HS_COMMAND, HS_REQUEST, LC_COMMAND, LC_REQUEST, MD_COMMAND, MD_REQUEST,
    MM_COMMAND, MM_REQUEST, SC_COMMAND, SC_REQUEST,
};
use row_forms::Field::{Check, Value};
use row_forms::Kind::{Block, Number};
use row_forms::Spelling::{Decimal, Hex, Mask, Time};
use row_forms::Width::{U8, U16, U32};
use row_forms::{Field, Kind};

const BYTE: Kind = Number(U8, Decimal);

const COUNT: Kind = Number(U16, Decimal);

const LENGTH: Kind = Number(U32, Decimal);

const FILLED: Kind = Number(U8, Hex);

const ADDRESS: Kind = Number(U32, Hex);

const BITS: Kind = Number(U16, Mask);

const SECONDS: Kind = Number(U32, Time);

const NO_FIELDS: &[Field] = &[];

const MAXIMUM: &[Field] = &[Value("maximum", COUNT)];

const PEEK: &[Field] = &[Value("width", BYTE), Value("address", ADDRESS)];

const POKE: &[Field] = &[
    Value("width", BYTE),
    Value("address", ADDRESS),
    Value("value", ADDRESS),
];

const LOAD: &[Field] = &[Value("address", ADDRESS), Check, Value("bytes", Block)];

const LOAD_FILE: &[Field] = &[Value("load", COUNT)];

const FILL: &[Field] = &[
    Value("address", ADDRESS),
    Value("length", LENGTH),
    Value("byte", FILLED),
];

const REGION: &[Field] = &[Value("region", BYTE)];

const DUMP: &[Field] = &[Value("address", ADDRESS), Value("length", LENGTH)];

const TABLES: &[Field] = &[Value("tables", BITS)];

const JAM: &[Field] = &[
    Value("table", COUNT),
    Value("entry", COUNT),
    Value("length", COUNT),
    Value("delay", COUNT),
    Value("address", ADDRESS),
];

const TABLE: &[Field] = &[Value("table", COUNT)];

const ENTRY: &[Field] = &[Value("table", COUNT), Value("entry", COUNT)];

const NUMBER: &[Field] = &[Value("number", COUNT)];

const TIME: &[Field] = &[Value("time", SECONDS)];

const POINT: &[Field] = &[Value("point", COUNT)];

/// How many commands there are.
const COUNT_OF_COMMANDS: usize = 52;

static COMMANDS: [Command; COUNT_OF_COMMANDS] = [
    Command {
        name: "hs.no_op",
        id: HS_COMMAND,
        code: 0,
        fields: NO_FIELDS,
    },
    Command {
        name: "hs.reset_counts",
        id: HS_COMMAND,
        code: 1,
        fields: NO_FIELDS,
    },
    Command {
        name: "hs.apps_on",
        id: HS_COMMAND,
        code: 2,
        fields: NO_FIELDS,
    },
    Command {
        name: "hs.apps_off",
        id: HS_COMMAND,
        code: 3,
        fields: NO_FIELDS,
    },
    Command {
        name: "hs.events_on",
        id: HS_COMMAND,
        code: 4,
        fields: NO_FIELDS,
    },
    Command {
        name: "hs.events_off",
        id: HS_COMMAND,
        code: 5,
        fields: NO_FIELDS,
    },
    Command {
        name: "hs.clear_resets",
        id: HS_COMMAND,
        code: 8,
        fields: NO_FIELDS,
    },
    Command {
        name: "hs.max_resets",
        id: HS_COMMAND,
        code: 9,
        fields: MAXIMUM,
    },
    Command {
        name: "hs.housekeeping",
        id: HS_REQUEST,
        code: 0,
        fields: NO_FIELDS,
    },
    Command {
        name: "mm.no_op",
        id: MM_COMMAND,
        code: 0,
        fields: NO_FIELDS,
    },
    Command {
        name: "mm.reset_counts",
        id: MM_COMMAND,
        code: 1,
        fields: NO_FIELDS,
    },
    Command {
        name: "mm.peek",
        id: MM_COMMAND,
        code: 2,
        fields: PEEK,
    },
    Command {
        name: "mm.poke",
        id: MM_COMMAND,
        code: 3,
        fields: POKE,
    },
    Command {
        name: "mm.load",
        id: MM_COMMAND,
        code: 4,
        fields: LOAD,
    },
    Command {
        name: "mm.load_file",
        id: MM_COMMAND,
        code: 5,
        fields: LOAD_FILE,
    },
    Command {
        name: "mm.fill",
        id: MM_COMMAND,
        code: 8,
        fields: FILL,
    },
    Command {
        name: "mm.eeprom_enable",
        id: MM_COMMAND,
        code: 11,
        fields: REGION,
    },
    Command {
        name: "mm.eeprom_disable",
        id: MM_COMMAND,
        code: 12,
        fields: REGION,
    },
    Command {
        name: "mm.dump",
        id: MM_COMMAND,
        code: 13,
        fields: DUMP,
    },
    Command {
        name: "mm.housekeeping",
        id: MM_REQUEST,
        code: 0,
        fields: NO_FIELDS,
    },
    Command {
        name: "md.no_op",
        id: MD_COMMAND,
        code: 0,
        fields: NO_FIELDS,
    },
    Command {
        name: "md.reset_counts",
        id: MD_COMMAND,
        code: 1,
        fields: NO_FIELDS,
    },
    Command {
        name: "md.start",
        id: MD_COMMAND,
        code: 2,
        fields: TABLES,
    },
    Command {
        name: "md.stop",
        id: MD_COMMAND,
        code: 3,
        fields: TABLES,
    },
    Command {
        name: "md.jam",
        id: MD_COMMAND,
        code: 4,
        fields: JAM,
    },
    Command {
        name: "md.housekeeping",
        id: MD_REQUEST,
        code: 0,
        fields: NO_FIELDS,
    },
    Command {
        name: "cs.no_op",
        id: CS_COMMAND,
        code: 0,
        fields: NO_FIELDS,
    },
    Command {
        name: "cs.reset_counts",
        id: CS_COMMAND,
        code: 1,
        fields: NO_FIELDS,
    },
    Command {
        name: "cs.on",
        id: CS_COMMAND,
        code: 2,
        fields: NO_FIELDS,
    },
    Command {
        name: "cs.off",
        id: CS_COMMAND,
        code: 3,
        fields: NO_FIELDS,
    },
    Command {
        name: "cs.table_on",
        id: CS_COMMAND,
        code: 4,
        fields: TABLE,
    },
    Command {
        name: "cs.table_off",
        id: CS_COMMAND,
        code: 5,
        fields: TABLE,
    },
    Command {
        name: "cs.entry_on",
        id: CS_COMMAND,
        code: 6,
        fields: ENTRY,
    },
    Command {
        name: "cs.entry_off",
        id: CS_COMMAND,
        code: 7,
        fields: ENTRY,
    },
    Command {
        name: "cs.report",
        id: CS_COMMAND,
        code: 8,
        fields: ENTRY,
    },
    Command {
        name: "cs.housekeeping",
        id: CS_REQUEST,
        code: 0,
        fields: NO_FIELDS,
    },
    Command {
        name: "sc.no_op",
        id: SC_COMMAND,
        code: 0,
        fields: NO_FIELDS,
    },
    Command {
        name: "sc.reset_counts",
        id: SC_COMMAND,
        code: 1,
        fields: NO_FIELDS,
    },
    Command {
        name: "sc.start_ats",
        id: SC_COMMAND,
        code: 2,
        fields: NUMBER,
    },
    Command {
        name: "sc.stop_ats",
        id: SC_COMMAND,
        code: 3,
        fields: NO_FIELDS,
    },
    Command {
        name: "sc.start_rts",
        id: SC_COMMAND,
        code: 4,
        fields: NUMBER,
    },
    Command {
        name: "sc.stop_rts",
        id: SC_COMMAND,
        code: 5,
        fields: NUMBER,
    },
    Command {
        name: "sc.disable_rts",
        id: SC_COMMAND,
        code: 6,
        fields: NUMBER,
    },
    Command {
        name: "sc.enable_rts",
        id: SC_COMMAND,
        code: 7,
        fields: NUMBER,
    },
    Command {
        name: "sc.switch_ats",
        id: SC_COMMAND,
        code: 8,
        fields: NO_FIELDS,
    },
    Command {
        name: "sc.jump_ats",
        id: SC_COMMAND,
        code: 9,
        fields: TIME,
    },
    Command {
        name: "sc.housekeeping",
        id: SC_REQUEST,
        code: 0,
        fields: NO_FIELDS,
    },
    Command {
        name: "lc.no_op",
        id: LC_COMMAND,
        code: 0,
        fields: NO_FIELDS,
    },
    Command {
        name: "lc.reset_counts",
        id: LC_COMMAND,
        code: 1,
        fields: NO_FIELDS,
    },
    Command {
        name: "lc.set_active",
        id: LC_COMMAND,
        code: 2,
        fields: POINT,
    },
    Command {
        name: "lc.set_passive",
        id: LC_COMMAND,
        code: 3,
        fields: POINT,
    },
    Command {
        name: "lc.housekeeping",
        id: LC_REQUEST,
        code: 0,
        fields: NO_FIELDS,
    },
];

/// Every command of the six applications and the requests for their housekeeping.
pub fn commands() -> &'static [Command]
    ensures listed { map placed result.now ≡ dictionary }
    ensures good { are_good result.now ≡ true }
    ensures distinct { are_distinct result.now ≡ true }
{
    &COMMANDS
}
