//! Laws of shown plans, as contracts of functions that do nothing.
ghost use Rattle.std.specs.Prelude.{◌≡◌, ℕ, List};
ghost use Rattle.telecommands.specs.Dictionary.{dictionary};
ghost use Rattle.scenario.specs.Texts.{Ended};
ghost use Rattle.shown_plans.specs.Shown.{plain_of, plan_shown};
ghost use Rattle.shown_plans.specs.KeptFrames.{whole_reading, GivesOrIsLong};
ghost use Rattle.shown_plans.specs.Worked.{scenario, plain_scenario, plan};

/// One space between two words, packets in upper case and no line that is skipped: a scenario's reader that finds no fault in a scenario
/// finds its header and its frames in these lines too, and the other way round, unless a line of the other text is too long.
pub fn plain_lines_keep_frames()
    ensures plain { (text : List ℕ) → (whole_reading text).ending ≡ Ended
        → GivesOrIsLong (whole_reading text).items (whole_reading (plain_of text)) }
    ensures shown { (text : List ℕ) → (whole_reading (plain_of text)).ending ≡ Ended
        → GivesOrIsLong (whole_reading (plain_of text)).items (whole_reading text) }
{}

/// A literal scenario, its lines as a plan's scenario has them, and its plan.
pub fn worked_scenario()
    ensures plain { plain_of scenario ≡ plain_scenario }
    ensures plan { plan_shown dictionary scenario ≡ plan }
{}
