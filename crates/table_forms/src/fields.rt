//! The fields of the tables' entries, as docs/FILES.md lists them.

use row_forms::Field::Value;
use row_forms::Kind::{Block, Expression, Name, Number};
use row_forms::Spelling::{Decimal, Hex, Time};
use row_forms::Width::{U16, U32};
use row_forms::{Choice, Field, Kind, Spelling};

/// A word for a number.
macro_rules! word {
    ($text:expr, $number:expr) => {
        Choice {
            text: $text,
            number: $number,
        }
    };
}

const COUNT: Kind = Number(U16, Decimal);

const ID: Kind = Number(U16, Hex);

const LENGTH: Kind = Number(U32, Decimal);

const ADDRESS: Kind = Number(U32, Hex);

/// The actions of monitors, of which the third is another for each kind.
macro_rules! actions {
    ($third:expr) => {
        Number(
            U16,
            Spelling::Choice(&[
                word!("none", 0),
                word!("reset", 1),
                word!("restart", 2),
                word!($third, 3),
                word!("message1", 4),
                word!("message2", 5),
                word!("message3", 6),
                word!("message4", 7),
                word!("message5", 8),
                word!("message6", 9),
                word!("message7", 10),
                word!("message8", 11),
            ]),
        )
    };
}

const APP_ACTION: Kind = actions!("event");

const EVENT_ACTION: Kind = actions!("delete");

const MESSAGE_STATE: Kind = Number(
    U16,
    Spelling::Choice(&[
        word!("disabled", 0),
        word!("enabled", 1),
        word!("silent", 2),
    ]),
);

const ENTRY_STATE: Kind = Number(
    U16,
    Spelling::Choice(&[word!("empty", 0), word!("enabled", 1), word!("disabled", 2)]),
);

const POINT_STATE: Kind = Number(
    U16,
    Spelling::Choice(&[word!("unused", 0), word!("active", 1), word!("passive", 2)]),
);

const VALUE_TYPE: Kind = Number(
    U16,
    Spelling::Choice(&[
        word!("unused", 0),
        word!("u8", 1),
        word!("u16", 2),
        word!("u32", 3),
    ]),
);

const OPERATOR: Kind = Number(
    U16,
    Spelling::Choice(&[
        word!("<", 1),
        word!("<=", 2),
        word!("!=", 3),
        word!("==", 4),
        word!(">=", 5),
        word!(">", 6),
    ]),
);

/// The steps of an expression: watchpoints by the numbers of their entries, and operators.
const STEPS: Kind = Expression(&[
    word!("w1", 0),
    word!("w2", 1),
    word!("w3", 2),
    word!("w4", 3),
    word!("w5", 4),
    word!("w6", 5),
    word!("w7", 6),
    word!("w8", 7),
    word!("w9", 8),
    word!("w10", 9),
    word!("w11", 10),
    word!("w12", 11),
    word!("w13", 12),
    word!("w14", 13),
    word!("w15", 14),
    word!("w16", 15),
    word!("w17", 16),
    word!("w18", 17),
    word!("w19", 18),
    word!("w20", 19),
    word!("w21", 20),
    word!("w22", 21),
    word!("w23", 22),
    word!("w24", 23),
    word!("w25", 24),
    word!("w26", 25),
    word!("w27", 26),
    word!("w28", 27),
    word!("w29", 28),
    word!("w30", 29),
    word!("w31", 30),
    word!("w32", 31),
    word!("and", 0x8001),
    word!("or", 0x8002),
    word!("xor", 0x8003),
    word!("not", 0x8004),
]);

pub(crate) const APPS: &[Field] = &[
    Value("app", Name),
    Value("cycles", COUNT),
    Value("action", APP_ACTION),
];

pub(crate) const EVENTS: &[Field] = &[
    Value("app", Name),
    Value("event", COUNT),
    Value("action", EVENT_ACTION),
];

pub(crate) const COUNTERS: &[Field] = &[Value("app", Name), Value("type", COUNT)];

pub(crate) const ACTIONS: &[Field] = &[Value("state", MESSAGE_STATE), Value("cooldown", COUNT)];

pub(crate) const DWELLS: &[Field] = &[
    Value("length", COUNT),
    Value("delay", COUNT),
    Value("address", ADDRESS),
];

pub(crate) const CHECKSUMS: &[Field] = &[
    Value("state", ENTRY_STATE),
    Field::Zeros(2),
    Value("start", ADDRESS),
    Value("length", LENGTH),
];

pub(crate) const WATCHPOINTS: &[Field] = &[
    Value("type", VALUE_TYPE),
    Value("id", ID),
    Value("offset", COUNT),
    Value("operator", OPERATOR),
    Value("mask", ADDRESS),
    Value("limit", LENGTH),
];

pub(crate) const ACTIONPOINTS: &[Field] = &[
    Value("state", POINT_STATE),
    Value("sequence", COUNT),
    Value("failures", COUNT),
    Value("when", STEPS),
];

pub(crate) const ABSOLUTE: &[Field] = &[Value("number", COUNT), Value("time", Number(U32, Time))];

pub(crate) const RELATIVE: &[Field] = &[Value("after", COUNT)];

pub(crate) const HEAD: &[Field] = &[Value("enabled", COUNT), Value("spare", COUNT)];

pub(crate) const HEADER: &[Field] = &[
    Value("length", LENGTH),
    Value("spacecraft", LENGTH),
    Value("processor", LENGTH),
    Value("application", LENGTH),
    Value("seconds", LENGTH),
    Value("subseconds", LENGTH),
    Value("reserved", ADDRESS),
    Value("description", Block),
];
