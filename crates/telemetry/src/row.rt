//! A kind of telemetry.

use row_forms::Field;

/// A kind of telemetry packet: the name that it has in words, its packets' message id, and what they have. The first two fields are
/// the header's seconds and its sequence count; those of the payload stand behind them.
#[derive(Clone, Copy, Debug)]
pub struct TelemetryRow {
    pub name: &'static str,
    pub id: u16,
    pub fields: &'static [Field],
}
