//! The telemetry that the limit checker takes.
ghost use Rattle.std.specs.Prelude.{◌≡◌};
ghost use Rattle.table_warnings.specs.Watched.{is_watched};

use packet_forms::message_ids::{
    CS_BASELINE, CS_HOUSEKEEPING, HS_HOUSEKEEPING, LC_HOUSEKEEPING, MD_DWELL, MD_HOUSEKEEPING,
    MM_DUMP, MM_HOUSEKEEPING, MM_PEEK, SC_HOUSEKEEPING,
};

/// Whether packets of an id go to the limit checker's pipe of telemetry.
#[tactic(auto, unfolding(crate::specs::Watched::is_watched))]
pub(crate) fn is_watched(id: u16) -> bool
    ensures { result ≡ is_watched id }
{
    id == HS_HOUSEKEEPING
        || id == CS_HOUSEKEEPING
        || id == SC_HOUSEKEEPING
        || id == MM_HOUSEKEEPING
        || id == MD_HOUSEKEEPING
        || id == MM_PEEK
        || id == MM_DUMP
        || id == MD_DWELL + 1
        || id == MD_DWELL + 2
        || id == MD_DWELL + 3
        || id == MD_DWELL + 4
        || id == CS_BASELINE
        || id == LC_HOUSEKEEPING
}
