//! The message ids of the bus.

/// Commands of Health and Safety.
pub const HS_COMMAND: u16 = 0x18AE;
/// The request for the housekeeping of Health and Safety.
pub const HS_REQUEST: u16 = 0x18AF;
/// The housekeeping of Health and Safety.
pub const HS_HOUSEKEEPING: u16 = 0x08AD;

/// Commands of Checksum.
pub const CS_COMMAND: u16 = 0x189F;
/// The request for the housekeeping of Checksum.
pub const CS_REQUEST: u16 = 0x18A0;
/// The housekeeping of Checksum.
pub const CS_HOUSEKEEPING: u16 = 0x08A4;
/// A baseline that Checksum reports.
pub const CS_BASELINE: u16 = 0x08A5;

/// Commands of Stored Command.
pub const SC_COMMAND: u16 = 0x18A9;
/// The request for the housekeeping of Stored Command.
pub const SC_REQUEST: u16 = 0x18AA;
/// The housekeeping of Stored Command.
pub const SC_HOUSEKEEPING: u16 = 0x08AA;

/// Commands of Memory Manager.
pub const MM_COMMAND: u16 = 0x1888;
/// The request for the housekeeping of Memory Manager.
pub const MM_REQUEST: u16 = 0x1889;
/// The housekeeping of Memory Manager.
pub const MM_HOUSEKEEPING: u16 = 0x0887;
/// A number that Memory Manager read.
pub const MM_PEEK: u16 = 0x088A;
/// Bytes that Memory Manager read.
pub const MM_DUMP: u16 = 0x088B;

/// Commands of Memory Dwell.
pub const MD_COMMAND: u16 = 0x1890;
/// The request for the housekeeping of Memory Dwell.
pub const MD_REQUEST: u16 = 0x1891;
/// The housekeeping of Memory Dwell.
pub const MD_HOUSEKEEPING: u16 = 0x0890;
/// The packets of dwell table n, from 1 to 4, have this id plus n.
pub const MD_DWELL: u16 = 0x0890;

/// Commands of the Limit Checker.
pub const LC_COMMAND: u16 = 0x18A6;
/// The request for the housekeeping of the Limit Checker.
pub const LC_REQUEST: u16 = 0x18A7;
/// The housekeeping of the Limit Checker.
pub const LC_HOUSEKEEPING: u16 = 0x08A7;

/// Events of all applications.
pub const EVENT: u16 = 0x0808;
