//! The names of telecommands, telemetry and events.

ghost use Rattle.std.specs.Prelude.{◌≡◌, ℕ, Option, map};
ghost use Rattle.telecommands.specs.Dictionary.{placed as placed_command, dictionary as command_dictionary};
ghost use Rattle.telemetry.specs.Dictionary.{placed as placed_row, dictionary as telemetry_dictionary};
ghost use Rattle.events.specs.Tables.{placed_event, event_table};

use events::{Event, events};
use telecommands::{Command, commands};
use telemetry::{TelemetryRow, telemetry_rows};

/// The names by which packets are told: rows of telecommands, of telemetry and of events.
#[derive(Clone, Copy, Debug)]
pub struct Vocabulary {
    pub commands: &'static [Command],
    pub telemetry: &'static [TelemetryRow],
    pub events: &'static [Event],
}

impl Vocabulary {
    ghost use Rattle.log_lines.specs.declared.line.LogLine.{LogLine};
    ghost use Rattle.log_words.specs.Sentences.{IsGood, sentence_of};
    ghost use Rattle.log_words.specs.Worked.{own_words};

    /// That of the applications of the bench: sentences are those of the rows that telecommands, telemetry and events list.
    pub fn of_applications() -> Vocabulary
        ensures good { IsGood result }
        ensures commands { map placed_command result.commands.now ≡ command_dictionary }
        ensures telemetry { map placed_row result.telemetry.now ≡ telemetry_dictionary }
        ensures events { map placed_event result.events.now ≡ event_table }
        ensures sentences { (epoch : Option ℕ) (line : LogLine)
            → sentence_of result epoch line ≡ sentence_of own_words epoch line }
    {
        Vocabulary {
            commands: commands(),
            telemetry: telemetry_rows(),
            events: events(),
        }
    }
}
