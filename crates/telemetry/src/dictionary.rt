//! The telemetry of the applications, as docs/COMMANDS.md lists it.
ghost use Rattle.std.specs.Prelude.{◌≡◌, true, map};
ghost use Rattle.telemetry.specs.Telemetry.{are_good, are_distinct};
ghost use Rattle.telemetry.specs.Dictionary.{placed, dictionary};

use crate::row::TelemetryRow;
use packet_forms::message_ids::{
    CS_BASELINE, CS_HOUSEKEEPING, EVENT, HS_HOUSEKEEPING, LC_HOUSEKEEPING, MD_DWELL,
    MD_HOUSEKEEPING, MM_DUMP, MM_HOUSEKEEPING, MM_PEEK, SC_HOUSEKEEPING,
};
use row_forms::Field::{Value, Zeros};
use row_forms::Kind::{Block, Name, Number};
use row_forms::Spelling::{Decimal, Hex, Mask, Time};
use row_forms::Width::{U8, U16, U32};
use row_forms::{Choice, Field, Kind, Spelling};

const SECONDS: Kind = Number(U32, Time);

const BYTE: Kind = Number(U8, Decimal);

const COUNT: Kind = Number(U16, Decimal);

const LONG_COUNT: Kind = Number(U32, Decimal);

const CHECKSUM: Kind = Number(U16, Hex);

const ADDRESS: Kind = Number(U32, Hex);

const BITS: Kind = Number(U8, Mask);

const POINTS: Kind = Number(U16, Mask);

const LONG_BITS: Kind = Number(U32, Mask);

const SWITCH: Kind = Number(
    U8,
    Spelling::Choice(&[
        Choice {
            text: "off",
            number: 0,
        },
        Choice {
            text: "on",
            number: 1,
        },
    ]),
);

const COUNTER: Kind = Number(
    U32,
    Spelling::Choice(&[Choice {
        text: "none",
        number: 0xFFFFFFFF,
    }]),
);

const SLICES: Kind = Number(
    U8,
    Spelling::Choice(&[
        Choice {
            text: "nothing",
            number: 0,
        },
        Choice {
            text: "cs",
            number: 1,
        },
        Choice {
            text: "eeprom",
            number: 2,
        },
        Choice {
            text: "cs+eeprom",
            number: 3,
        },
        Choice {
            text: "memory",
            number: 4,
        },
        Choice {
            text: "cs+memory",
            number: 5,
        },
        Choice {
            text: "eeprom+memory",
            number: 6,
        },
        Choice {
            text: "cs+eeprom+memory",
            number: 7,
        },
    ]),
);

const KNOWN: Kind = Number(
    U16,
    Spelling::Choice(&[
        Choice {
            text: "no",
            number: 0,
        },
        Choice {
            text: "yes",
            number: 1,
        },
    ]),
);

const SEQUENCE: Kind = Number(
    U8,
    Spelling::Choice(&[Choice {
        text: "none",
        number: 0,
    }]),
);

const TYPE: Kind = Number(
    U16,
    Spelling::Choice(&[
        Choice {
            text: "information",
            number: 2,
        },
        Choice {
            text: "error",
            number: 3,
        },
    ]),
);

/// The seconds of the header.
const TIME: Field = Value("time", SECONDS);

/// The sequence count of the header.
const SEQUENCE_COUNT: Field = Value("count", COUNT);

const ACCEPTED: Field = Value("accepted", BYTE);

const ERRORS: Field = Value("errors", BYTE);

const HS_STATE: &[Field] = &[
    TIME,
    SEQUENCE_COUNT,
    ACCEPTED,
    ERRORS,
    Value("apps", SWITCH),
    Value("events", SWITCH),
    Value("resets", COUNT),
    Value("max_resets", COUNT),
    Value("actions", COUNT),
    Zeros(2),
    Value("watching", LONG_BITS),
    Value("counter1", COUNTER),
    Value("counter2", COUNTER),
    Value("counter3", COUNTER),
    Value("counter4", COUNTER),
    Value("counter5", COUNTER),
    Value("counter6", COUNTER),
    Value("counter7", COUNTER),
    Value("counter8", COUNTER),
    Value("counter9", COUNTER),
    Value("counter10", COUNTER),
    Value("counter11", COUNTER),
    Value("counter12", COUNTER),
    Value("counter13", COUNTER),
    Value("counter14", COUNTER),
    Value("counter15", COUNTER),
    Value("counter16", COUNTER),
    Value("counter17", COUNTER),
    Value("counter18", COUNTER),
    Value("counter19", COUNTER),
    Value("counter20", COUNTER),
    Value("counter21", COUNTER),
    Value("counter22", COUNTER),
    Value("counter23", COUNTER),
    Value("counter24", COUNTER),
    Value("counter25", COUNTER),
    Value("counter26", COUNTER),
    Value("counter27", COUNTER),
    Value("counter28", COUNTER),
    Value("counter29", COUNTER),
    Value("counter30", COUNTER),
    Value("counter31", COUNTER),
    Value("counter32", COUNTER),
];

const MM_STATE: &[Field] = &[
    TIME,
    SEQUENCE_COUNT,
    ACCEPTED,
    ERRORS,
    Value("open", BITS),
    Zeros(1),
];

const PEEK: &[Field] = &[
    TIME,
    SEQUENCE_COUNT,
    Value("width", BYTE),
    Value("address", ADDRESS),
    Value("value", ADDRESS),
];

const DUMP: &[Field] = &[
    TIME,
    SEQUENCE_COUNT,
    Value("address", ADDRESS),
    Value("length", COUNT),
    Value("bytes", Block),
];

const MD_STATE: &[Field] = &[
    TIME,
    SEQUENCE_COUNT,
    ACCEPTED,
    ERRORS,
    Value("enabled", BITS),
    Zeros(1),
];

const ROUND: &[Field] = &[
    TIME,
    SEQUENCE_COUNT,
    Value("table", COUNT),
    Value("length", COUNT),
    Value("bytes", Block),
];

const CS_STATE: &[Field] = &[
    TIME,
    SEQUENCE_COUNT,
    ACCEPTED,
    ERRORS,
    Value("on", SLICES),
    Zeros(1),
    Value("eeprom_miscompares", COUNT),
    Value("memory_miscompares", COUNT),
    Value("passes", LONG_COUNT),
];

const BASELINE: &[Field] = &[
    TIME,
    SEQUENCE_COUNT,
    Value("table", COUNT),
    Value("entry", COUNT),
    Value("known", KNOWN),
    Value("baseline", CHECKSUM),
];

const SC_STATE: &[Field] = &[
    TIME,
    SEQUENCE_COUNT,
    ACCEPTED,
    ERRORS,
    Value("ats", SEQUENCE),
    Zeros(1),
    Value("left", COUNT),
    Value("sent", COUNT),
    Value("wrong", COUNT),
    Zeros(2),
    Value("running_32_plus", LONG_BITS),
    Value("running", LONG_BITS),
    Value("enabled_32_plus", LONG_BITS),
    Value("enabled", LONG_BITS),
];

const LC_STATE: &[Field] = &[
    TIME,
    SEQUENCE_COUNT,
    ACCEPTED,
    ERRORS,
    Zeros(2),
    Value("active", POINTS),
    Value("fired", COUNT),
    Value("results_17_to_32", ADDRESS),
    Value("results_1_to_16", ADDRESS),
];

const EVENT_MESSAGE: &[Field] = &[
    TIME,
    SEQUENCE_COUNT,
    Value("app", Name),
    Value("event", COUNT),
    Value("type", TYPE),
    Value("spacecraft", LONG_COUNT),
    Value("processor", LONG_COUNT),
];

/// How many kinds of telemetry there are.
const COUNT_OF_ROWS: usize = 14;

static ROWS: [TelemetryRow; COUNT_OF_ROWS] = [
    TelemetryRow {
        name: "hs.housekeeping",
        id: HS_HOUSEKEEPING,
        fields: HS_STATE,
    },
    TelemetryRow {
        name: "mm.housekeeping",
        id: MM_HOUSEKEEPING,
        fields: MM_STATE,
    },
    TelemetryRow {
        name: "mm.peek",
        id: MM_PEEK,
        fields: PEEK,
    },
    TelemetryRow {
        name: "mm.dump",
        id: MM_DUMP,
        fields: DUMP,
    },
    TelemetryRow {
        name: "md.housekeeping",
        id: MD_HOUSEKEEPING,
        fields: MD_STATE,
    },
    TelemetryRow {
        name: "md.round1",
        id: MD_DWELL + 1,
        fields: ROUND,
    },
    TelemetryRow {
        name: "md.round2",
        id: MD_DWELL + 2,
        fields: ROUND,
    },
    TelemetryRow {
        name: "md.round3",
        id: MD_DWELL + 3,
        fields: ROUND,
    },
    TelemetryRow {
        name: "md.round4",
        id: MD_DWELL + 4,
        fields: ROUND,
    },
    TelemetryRow {
        name: "cs.housekeeping",
        id: CS_HOUSEKEEPING,
        fields: CS_STATE,
    },
    TelemetryRow {
        name: "cs.baseline",
        id: CS_BASELINE,
        fields: BASELINE,
    },
    TelemetryRow {
        name: "sc.housekeeping",
        id: SC_HOUSEKEEPING,
        fields: SC_STATE,
    },
    TelemetryRow {
        name: "lc.housekeeping",
        id: LC_HOUSEKEEPING,
        fields: LC_STATE,
    },
    TelemetryRow {
        name: "event",
        id: EVENT,
        fields: EVENT_MESSAGE,
    },
];

/// Every telemetry packet of the six applications, and events.
pub fn telemetry_rows() -> &'static [TelemetryRow]
    ensures listed { map placed result.now ≡ dictionary }
    ensures good { are_good result.now ≡ true }
    ensures distinct { are_distinct result.now ≡ true }
{
    &ROWS
}
