//! The payload of a dwell packet.

use packet_forms::ByteList;

/// How many bytes the payload of a dwell packet has at most: four bytes of numbers, and 25 values of 4 bytes.
const PAYLOAD_BYTES: usize = 104;

/// Up to 104 bytes.
pub(crate) type Payload = ByteList<PAYLOAD_BYTES>;
