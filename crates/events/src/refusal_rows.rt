//! Why each command may be refused, as docs/COMMANDS.md lists it.
ghost use Rattle.std.specs.Prelude.{◌≡◌, true, map};
ghost use Rattle.events.specs.Refusals.{are_refusals_distinct};
ghost use Rattle.events.specs.Tables.{placed_refusal, refusal_table};

use crate::refusal::Refusal;

/// How many refusals there are.
const COUNT_OF_REFUSALS: usize = 64;

static REFUSALS: [Refusal; COUNT_OF_REFUSALS] = [
    Refusal {
        application: "MM",
        code: 2,
        number: 8,
        reason: "the width isn't 8, 16 or 32",
    },
    Refusal {
        application: "MM",
        code: 2,
        number: 4,
        reason: "the bytes lie in no region, or not all in one",
    },
    Refusal {
        application: "MM",
        code: 2,
        number: 5,
        reason: "the address isn't a multiple of the width",
    },
    Refusal {
        application: "MM",
        code: 2,
        number: 6,
        reason: "the region takes another width alone",
    },
    Refusal {
        application: "MM",
        code: 3,
        number: 8,
        reason: "the width isn't 8, 16 or 32",
    },
    Refusal {
        application: "MM",
        code: 3,
        number: 4,
        reason: "the bytes lie in no region, or not all in one",
    },
    Refusal {
        application: "MM",
        code: 3,
        number: 5,
        reason: "the address isn't a multiple of the width",
    },
    Refusal {
        application: "MM",
        code: 3,
        number: 6,
        reason: "the region takes another width alone",
    },
    Refusal {
        application: "MM",
        code: 3,
        number: 7,
        reason: "the EEPROM region is protected",
    },
    Refusal {
        application: "MM",
        code: 4,
        number: 10,
        reason: "the CRC isn't that of the bytes",
    },
    Refusal {
        application: "MM",
        code: 4,
        number: 4,
        reason: "the bytes lie in no region, or not all in one",
    },
    Refusal {
        application: "MM",
        code: 4,
        number: 5,
        reason: "address or length isn't a multiple of what the region takes",
    },
    Refusal {
        application: "MM",
        code: 4,
        number: 7,
        reason: "the EEPROM region is protected",
    },
    Refusal {
        application: "MM",
        code: 5,
        number: 11,
        reason: "there is no load file of this number",
    },
    Refusal {
        application: "MM",
        code: 5,
        number: 4,
        reason: "the bytes lie in no region, or not all in one",
    },
    Refusal {
        application: "MM",
        code: 5,
        number: 5,
        reason: "address or length isn't a multiple of what the region takes",
    },
    Refusal {
        application: "MM",
        code: 5,
        number: 7,
        reason: "the EEPROM region is protected",
    },
    Refusal {
        application: "MM",
        code: 8,
        number: 9,
        reason: "the length is 0 or over 65536",
    },
    Refusal {
        application: "MM",
        code: 8,
        number: 4,
        reason: "the bytes lie in no region, or not all in one",
    },
    Refusal {
        application: "MM",
        code: 8,
        number: 5,
        reason: "address or length isn't a multiple of what the region takes",
    },
    Refusal {
        application: "MM",
        code: 8,
        number: 7,
        reason: "the EEPROM region is protected",
    },
    Refusal {
        application: "MM",
        code: 11,
        number: 12,
        reason: "the number isn't that of an EEPROM region",
    },
    Refusal {
        application: "MM",
        code: 12,
        number: 12,
        reason: "the number isn't that of an EEPROM region",
    },
    Refusal {
        application: "MM",
        code: 13,
        number: 9,
        reason: "the length is 0 or over 2048",
    },
    Refusal {
        application: "MM",
        code: 13,
        number: 4,
        reason: "the bytes lie in no region, or not all in one",
    },
    Refusal {
        application: "MM",
        code: 13,
        number: 5,
        reason: "address or length isn't a multiple of what the region takes",
    },
    Refusal {
        application: "MD",
        code: 2,
        number: 4,
        reason: "the mask is 0 or over 15",
    },
    Refusal {
        application: "MD",
        code: 3,
        number: 4,
        reason: "the mask is 0 or over 15",
    },
    Refusal {
        application: "MD",
        code: 4,
        number: 4,
        reason: "the table isn't 1 to 4",
    },
    Refusal {
        application: "MD",
        code: 4,
        number: 5,
        reason: "the entry isn't 1 to 25",
    },
    Refusal {
        application: "MD",
        code: 4,
        number: 6,
        reason: "the length isn't 0, 1, 2 or 4",
    },
    Refusal {
        application: "MD",
        code: 4,
        number: 7,
        reason: "memory doesn't give the read: it isn't in one region, isn't aligned, or has a size that the region doesn't take",
    },
    Refusal {
        application: "CS",
        code: 4,
        number: 4,
        reason: "the table isn't 1 or 2",
    },
    Refusal {
        application: "CS",
        code: 5,
        number: 4,
        reason: "the table isn't 1 or 2",
    },
    Refusal {
        application: "CS",
        code: 6,
        number: 4,
        reason: "the table isn't 1 or 2",
    },
    Refusal {
        application: "CS",
        code: 6,
        number: 5,
        reason: "the entry isn't 1 to 16",
    },
    Refusal {
        application: "CS",
        code: 6,
        number: 6,
        reason: "the entry's state in its file is 0",
    },
    Refusal {
        application: "CS",
        code: 7,
        number: 4,
        reason: "the table isn't 1 or 2",
    },
    Refusal {
        application: "CS",
        code: 7,
        number: 5,
        reason: "the entry isn't 1 to 16",
    },
    Refusal {
        application: "CS",
        code: 7,
        number: 6,
        reason: "the entry's state in its file is 0",
    },
    Refusal {
        application: "CS",
        code: 8,
        number: 4,
        reason: "the table isn't 1 or 2",
    },
    Refusal {
        application: "CS",
        code: 8,
        number: 5,
        reason: "the entry isn't 1 to 16",
    },
    Refusal {
        application: "CS",
        code: 8,
        number: 6,
        reason: "the entry's state in its file is 0",
    },
    Refusal {
        application: "SC",
        code: 2,
        number: 4,
        reason: "the number isn't 1 or 2",
    },
    Refusal {
        application: "SC",
        code: 2,
        number: 5,
        reason: "the sequence isn't loaded",
    },
    Refusal {
        application: "SC",
        code: 2,
        number: 6,
        reason: "an absolute sequence runs",
    },
    Refusal {
        application: "SC",
        code: 2,
        number: 7,
        reason: "no command would remain",
    },
    Refusal {
        application: "SC",
        code: 4,
        number: 4,
        reason: "the number isn't 1 to 64",
    },
    Refusal {
        application: "SC",
        code: 4,
        number: 5,
        reason: "the sequence isn't loaded",
    },
    Refusal {
        application: "SC",
        code: 4,
        number: 9,
        reason: "the sequence is disabled",
    },
    Refusal {
        application: "SC",
        code: 4,
        number: 6,
        reason: "the sequence runs",
    },
    Refusal {
        application: "SC",
        code: 5,
        number: 4,
        reason: "the number isn't 1 to 64",
    },
    Refusal {
        application: "SC",
        code: 6,
        number: 4,
        reason: "the number isn't 1 to 64",
    },
    Refusal {
        application: "SC",
        code: 7,
        number: 4,
        reason: "the number isn't 1 to 64",
    },
    Refusal {
        application: "SC",
        code: 7,
        number: 5,
        reason: "the sequence isn't loaded",
    },
    Refusal {
        application: "SC",
        code: 8,
        number: 8,
        reason: "no absolute sequence runs",
    },
    Refusal {
        application: "SC",
        code: 8,
        number: 5,
        reason: "the other absolute sequence isn't loaded",
    },
    Refusal {
        application: "SC",
        code: 8,
        number: 7,
        reason: "no command would remain",
    },
    Refusal {
        application: "SC",
        code: 9,
        number: 8,
        reason: "no absolute sequence runs",
    },
    Refusal {
        application: "SC",
        code: 9,
        number: 7,
        reason: "no command would remain",
    },
    Refusal {
        application: "LC",
        code: 2,
        number: 4,
        reason: "the number isn't 1 to 16",
    },
    Refusal {
        application: "LC",
        code: 2,
        number: 5,
        reason: "the actionpoint is unused",
    },
    Refusal {
        application: "LC",
        code: 3,
        number: 4,
        reason: "the number isn't 1 to 16",
    },
    Refusal {
        application: "LC",
        code: 3,
        number: 5,
        reason: "the actionpoint is unused",
    },
];

/// The refusals of each command, but for the three that every command may meet.
pub fn refusals() -> &'static [Refusal]
    ensures listed { map placed_refusal result.now ≡ refusal_table }
    ensures distinct { are_refusals_distinct result.now ≡ true }
{
    &REFUSALS
}
