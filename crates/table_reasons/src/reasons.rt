//! The reasons of all tables' loaders, as docs/FILES.md lists them. There their numbers are 10 more than the loaders'.
ghost use Rattle.std.specs.Prelude.{◌≡◌};
ghost use Rattle.table_reasons.specs.Reasons.{by_words, reason_of, monitor_reason, counter_reason, action_reason, sequence_reason, dwell_reason, checksum_reason, watch_reason, point_reason};

use table_files::TableKind;

/// Where the number stands that a sentence tells of an entry.
#[derive(Clone, Copy, Debug, PartialEq, Eq)]
pub enum Place {
    /// No number is told.
    Nowhere,
    /// Two bytes from this place of the entry on.
    Short(u8),
    /// The four bytes of an address from this place of the entry on.
    Address(u8),
    /// Two bytes from this place of the payload on.
    Head(u8),
}

/// Why an entry is refused: what stands in front of the number that is told, where this stands, and what stands behind it.
#[derive(Clone, Copy, Debug)]
pub struct ReasonWords {
    pub before: &'static str,
    pub place: Place,
    pub behind: &'static str,
}

/// A sentence without a number.
macro_rules! plain {
    ($text:expr) => {
        Some(ReasonWords {
            before: $text,
            place: Place::Nowhere,
            behind: "",
        })
    };
}

/// A sentence that tells a number of the entry.
macro_rules! with {
    ($before:expr, $place:expr, $behind:expr) => {
        Some(ReasonWords {
            before: $before,
            place: $place,
            behind: $behind,
        })
    };
}

/// Why an entry of this kind of table is refused, by the number of its loader's reason; none where the loader has no such reason.
pub fn reason_words(kind: TableKind, reason: u8) -> Option<ReasonWords>
    ensures { by_words result ≡ reason_of kind reason }
{
    match kind {
        TableKind::AppMon | TableKind::EventMon => monitor_words(reason),
        TableKind::ExeCount => counter_words(reason),
        TableKind::MsgActs => action_words(reason),
        TableKind::Ats(_) | TableKind::Rts(_) => sequence_words(reason),
        TableKind::Dwell(_) => dwell_words(reason),
        TableKind::Eeprom | TableKind::Memory => checksum_words(reason),
        TableKind::Wdt => watch_words(reason),
        TableKind::Adt => point_words(reason),
    }
}

fn monitor_words(reason: u8) -> Option<ReasonWords>
    ensures { by_words result ≡ monitor_reason reason }
{
    match reason {
        1 => plain!("a used entry has no name of 1 to 19 letters, digits or _"),
        2 => with!("action ", Place::Short(22), " is over 11"),
        _ => None,
    }
}

fn counter_words(reason: u8) -> Option<ReasonWords>
    ensures { by_words result ≡ counter_reason reason }
{
    match reason {
        1 => plain!("a used entry has no name of 1 to 19 letters, digits or _"),
        3 => with!("type ", Place::Short(20), " is over 4"),
        _ => None,
    }
}

fn action_words(reason: u8) -> Option<ReasonWords>
    ensures { by_words result ≡ action_reason reason }
{
    match reason {
        4 => plain!("a used entry has no packet of 8 to 64 bytes"),
        5 => with!("state ", Place::Short(0), " is over 2"),
        _ => None,
    }
}

fn sequence_words(reason: u8) -> Option<ReasonWords>
    ensures { by_words result ≡ sequence_reason reason }
{
    match reason {
        1 => plain!("the command's number isn't 1 to 1000"),
        2 => plain!("an earlier entry has the command's number"),
        3 => plain!("no command packet of 8 to 256 bytes begins here"),
        4 => plain!("the entry runs past the end of the sequence"),
        _ => None,
    }
}

fn dwell_words(reason: u8) -> Option<ReasonWords>
    ensures { by_words result ≡ dwell_reason reason }
{
    match reason {
        1 => with!("length ", Place::Short(0), " isn't 0, 1, 2 or 4"),
        2 => with!("the enabled flag ", Place::Head(0), " is over 1"),
        3 => with!(
            "address ",
            Place::Address(4),
            " isn't a multiple of the length"
        ),
        _ => None,
    }
}

fn checksum_words(reason: u8) -> Option<ReasonWords>
    ensures { by_words result ≡ checksum_reason reason }
{
    match reason {
        1 => with!("state ", Place::Short(0), " is over 2"),
        2 => plain!("a used entry has length 0"),
        _ => None,
    }
}

fn watch_words(reason: u8) -> Option<ReasonWords>
    ensures { by_words result ≡ watch_reason reason }
{
    match reason {
        1 => with!("type ", Place::Short(0), " is over 3"),
        2 => with!("operator ", Place::Short(6), " isn't 1 to 6"),
        _ => None,
    }
}

fn point_words(reason: u8) -> Option<ReasonWords>
    ensures { by_words result ≡ point_reason reason }
{
    match reason {
        1 => with!("state ", Place::Short(0), " is over 2"),
        2 => with!(
            "sequence ",
            Place::Short(2),
            " isn't 1 to 64, or the number of failures is 0"
        ),
        3 => plain!(
            "the expression hasn't 1 to 16 words, has an unknown one, lacks an operand or doesn't leave one value"
        ),
        _ => None,
    }
}
