//! What the wakeups of a frame read.

use active_tables::Tables;
use bus_pipes::{Batch, Telemetry};
use memory_window::Window;
use packet_forms::Counter;

/// What an application reads in a frame beside the packets of its pipe: the tables with the files, the packets that HS took from its
/// pipe of events, those that LC took from that of telemetry, the frame's image, its execution counters, and its time.
#[derive(Drop)]
pub struct Reads<'a, 'n, 'f> {
    pub tables: &'a Tables<'f>,
    pub events: &'a Batch,
    pub telemetry: &'a Telemetry,
    pub window: Window<'a>,
    pub counters: &'n [Counter],
    pub time: u32,
}
