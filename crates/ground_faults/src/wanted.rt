//! What is wanted where a text has something else.

use crate::line_causes::LineCause;
use packet_forms::PacketFault;
use row_forms::{Choice, Kind, Spelling};
use std::fmt;
use thiserror::Error;

/// The words that a field takes.
#[derive(Clone, Copy, Debug)]
pub struct ChoiceList(pub(crate) &'static [Choice]);

impl fmt::Display for ChoiceList {
    fn fmt<W: fmt::Write>(&self, f: &mut fmt::Formatter<W>) -> fmt::Result {
        for (place, choice) in self.0.iter().enumerate() {
            if place != 0 {
                f.write_str(", ")?;
            }
            f.write_str(choice.text)?;
        }
        Ok(())
    }
}

/// What is wanted.
#[derive(Clone, Copy, Debug, Error)]
pub enum Wanted<'a> {
    /// A key of a command, a head or a first line.
    #[error("`{0}=`")]
    Key(&'static str),
    /// A key of an entry, and the name of the table in whose text.
    #[error("`{0}=`, in the text of {1}")]
    KeyInTable(&'static str, &'a str),
    /// One of a field's words.
    #[error("`{0}=` takes {1}")]
    Choices(&'static str, ChoiceList),
    /// A step of an expression.
    #[error("a step is w1 to w32 or one of its operators, such as `w1,w2,and`")]
    Steps,
    /// A time, which may be one behind an epoch.
    #[error("+H:MM:SS has minutes and seconds up to 59, counts from the plan's epoch, in a table's text alone from that of `--epoch`, and is at most second 4294967295")]
    Time,
    /// Numbers of bits.
    #[error("such as `1,3,4`, without spaces")]
    Bits,
    /// The name of a command, or a packet by its bytes.
    #[error("a command has a name in small letters such as `mm.peek`, and a packet by its bytes pairs of hexadecimal digits")]
    Command,
    /// The name of a table.
    #[error("tables are HS.AppMon_Tbl, HS.EventMon_Tbl, HS.ExeCount_Tbl, HS.MsgActs_Tbl, MD.DWELL_TABLE1 to MD.DWELL_TABLE4, CS.DefEepromTbl, CS.DefMemoryTbl, SC.ATS_TBL1, SC.ATS_TBL2, SC.RTS_TBL001 to SC.RTS_TBL064, LC.WDT_Tbl and LC.ADT_Tbl")]
    Table,
    /// The head of a dwell table.
    #[error("such as `head enabled=1 spare=0`")]
    Head,
    /// The bytes of a load.
    #[error("lines of `bytes` and pairs of hexadecimal digits stand between `load` and `end`, or `file=PATH` in the second line names a file that has some")]
    Bytes,
    /// The line that names the file whose bytes are to be loaded, and that file.
    #[error("line {0} loads the file {1:?}")]
    Loaded(u32, &'a str),
    /// The digits of a packet.
    #[error("the hexadecimal digits of a packet are pairs: one is missing or too many")]
    Pairs,
    /// The fields of a command.
    #[error("all fields together have at most 248 bytes, and a load takes 1 to 200 of them behind `bytes=`")]
    Payload,
    /// The bytes of a sequence.
    #[error("a relative sequence has at most 2048 bytes, an absolute one 65536: those of each packet, with 2 in front of it or 6")]
    Sequence,
    /// The packet of a message action.
    #[error("the packet of a message action has at most 64 bytes, 8 of them in front of its fields")]
    ActionPacket,
    /// How many bytes an entry of a table has, and how many there are.
    #[error("an entry of {0} has {1}, two digits each, and these are {2}")]
    EntryBytes(&'a str, usize, usize),
    /// How a line is written, or where it stands.
    #[error("{0}")]
    Form(&'static str),
    /// The number of an entry.
    #[error("the entries of {0} are 1 to {1}")]
    Entries(&'a str, usize),
    /// A space packet.
    #[error("{0}")]
    Packet(&'static str),
}

/// What helps to mend a fault of a text.
#[derive(Clone, Copy, Debug, Error)]
pub enum Hint<'a> {
    /// Why the line of this number is refused, in place of the fault's own words.
    #[error("line {0}: {1}")]
    Cause(u32, LineCause),
    /// What is wanted, beside the fault's own words.
    #[error("{0}")]
    Wanted(Wanted<'a>),
}

/// The words that a field of this kind takes.
pub(crate) fn choices_of(kind: Kind) -> Option<ChoiceList> {
    match kind {
        Kind::Number(_, Spelling::Choice(choices)) => Some(ChoiceList(choices)),
        _ => None,
    }
}

/// Why bytes are no packet.
pub fn packet_words(fault: PacketFault) -> &'static str {
    match fault {
        PacketFault::Short => "a packet has at least 8 bytes, two digits each",
        PacketFault::Long => "a packet has at most 256 bytes, two digits each",
        PacketFault::Version => "the packet's first three bits, its version, aren't 0",
        PacketFault::Segmented => {
            "the packet's third byte doesn't begin with two bits of 1, its sequence flags"
        }
        PacketFault::Length => {
            "the packet's length field, its fifth and sixth byte, isn't the number of bytes behind them less one"
        }
    }
}
