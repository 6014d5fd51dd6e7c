//! The four tables together.
ghost use Rattle.std.specs.Prelude.{◌≡◌};
ghost use Rattle.hs_tables.specs.Apps as apps;
ghost use Rattle.hs_tables.specs.Events as events;
ghost use Rattle.hs_tables.specs.Counters as counters;
ghost use Rattle.hs_tables.specs.Actions as actions;

use crate::actions::MsgActs;
use crate::apps::AppMon;
use crate::counters::ExeCount;
use crate::events::EventMon;

/// The tables of Health and Safety.
#[derive(Clone, Copy, Debug)]
pub struct HsTables {
    pub apps: AppMon,
    pub events: EventMon,
    pub counts: ExeCount,
    pub acts: MsgActs,
}

impl HsTables {
    /// Tables without a used entry.
    pub fn blank() -> HsTables
        ensures { result ≡ record {
          apps = apps.blank_rows;
          events = events.blank_rows;
          counts
              = counters.blank_rows;
          acts = actions.blank_rows;
        } }
    {
        HsTables {
            apps: AppMon::blank(),
            events: EventMon::blank(),
            counts: ExeCount::blank(),
            acts: MsgActs::blank(),
        }
    }
}
