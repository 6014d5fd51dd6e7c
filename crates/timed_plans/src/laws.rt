//! Laws of plans, as contracts of functions that do nothing.
ghost use Rattle.std.specs.Prelude.{◌≡◌, ◌<◌, ◌∷◌, [], ℕ, List, Ok, Err, codes, true, Some, None};
ghost use Rattle.packet_forms.specs.Names.{is_name_text, name_of};
ghost use Rattle.telecommands.specs.declared.command.Command.{Command};
ghost use Rattle.telecommands.specs.Commands.{are_good};
ghost use Rattle.telecommands.specs.Dictionary.{dictionary};
ghost use Rattle.calendar_dates.specs.declared.fault.DateFault.TheVariants as dates;
ghost use Rattle.scenario.specs.Texts.{Ended, reading};
ghost use Rattle.scenario.specs.declared.sentence.Sentence.TheVariants as says;
ghost use Rattle.plan_text.specs.declared.fault.PlanReason.TheVariants as reasons;
ghost use Rattle.plan_text.specs.Frames.{head_said, frames_said, sentence_said};
ghost use Rattle.plan_text.specs.Lines.{sent_line};
ghost use Rattle.plan_text.specs.Plans.{fault_on, packet_sent};
ghost use Rattle.timed_plans.specs.Schedules.{Schedule, app_line, scenario_lines, words_of, timed_items};
ghost use Rattle.timed_plans.specs.Plans.{schedule_said, period_said};
ghost use Rattle.timed_plans.specs.Checks.{scenario_said, IsSaid};
ghost use Rattle.timed_plans.specs.Worked.{plan, scenario, dated_plan, dated_scenario};

/// A plan with items in any order of time, spans, a period, a hold of two frames and counters, and its scenario's text.
pub fn worked_plan()
    ensures { IsSaid (schedule_said dictionary plan) scenario }
{}

/// A scenario that is made is read without fault, and gives the plan's header and its frames: as many as the plan has, each with exactly
/// the items that the plan says for its number, in the text's order.
pub fn scenarios_give_their_frames()
    ensures ends { (cs : List Command) (text made : List ℕ) → scenario_said cs text ≡ Ok made
        → (reading (record { bytes = made; closed = true })).ending ≡ Ended }
    ensures items { (cs : List Command) (text made : List ℕ) (s : Schedule) → are_good cs ≡ true
        → scenario_said cs text ≡ Ok made → schedule_said cs text ≡ Ok s
        → (reading (record { bytes = made; closed = true })).items
        ≡ head_said [] (words_of (scenario_lines s))
        ∷ frames_said s.frames 0 (timed_items s.lines) }
{}

/// What the lines of items say in their frames: that of a `send` the packet that the words behind it say, and that of a counter its name
/// and its value.
pub fn items_say_their_values()
    ensures sends { (cs : List Command) (epoch : ℕ) (ws : List (List ℕ)) (packet : List ℕ)
        → are_good cs ≡ true → packet_sent cs epoch ws ≡ Ok packet
        → sentence_said (sent_line packet) ≡ Ok (says.Send packet) }
    ensures counters { (name : List ℕ) (value : ℕ) → is_name_text name ≡ true → value < 4294967296
        → sentence_said (app_line name value)
        ≡ Ok (says.Count (record { name = name_of name; value = value })) }
{}

/// Faults with their lines: spans that are empty or out of form, a period of nothing, items out of their forms, an end before an item, and
/// frames behind the last one that a scenario can have.
pub fn worked_faults()
    ensures place { schedule_said [] (codes "epoch 5\nhold MM\n") ≡ Err (fault_on 2 reasons.Place) }
    ensures word { schedule_said [] (codes "epoch 5\n\nplay\n") ≡ Err (fault_on 3 reasons.Word) }
    ensures early { schedule_said [] (codes "epoch 5\nstart\nat 4\nend\n")
        ≡ Err (fault_on 3 reasons.Early) }
    ensures backward { schedule_said [] (codes "epoch 5\nstart\nfrom +0:00:02 to 7\nend\n")
        ≡ Err (fault_on 3 reasons.Backward) }
    ensures span { schedule_said [] (codes "epoch 5\nstart\nfrom 5 until 7\nend\n")
        ≡ Err (fault_on 3 reasons.Span) }
    ensures period { schedule_said [] (codes "epoch 5\nstart\nevery 0s from 5 to 7\nend\n")
        ≡ Err (fault_on 3 reasons.Period) }
    ensures hold { schedule_said [] (codes "epoch 5\nstart\nhold MM for 0\nend\n")
        ≡ Err (fault_on 3 reasons.Hold) }
    ensures counter { schedule_said [] (codes "epoch 5\nstart\ncounter NAV runs\nend\n")
        ≡ Err (fault_on 3 reasons.Counter) }
    ensures past { schedule_said [] (codes "epoch 5\nstart\nat 8\nhold MM\nend at 8\n")
        ≡ Err (fault_on 5 reasons.Past) }
    ensures end { schedule_said [] (codes "epoch 5\nstart\ntick\n") ≡ Err (fault_on 4 reasons.End) }
    ensures behind { schedule_said [] (codes "epoch 5\nstart\nend\n# late\ntick\n")
        ≡ Err (fault_on 5 reasons.Behind) }
    ensures frames { schedule_said [] (codes "epoch 5\nstart\nframe 100000\nhold MM\nend\n")
        ≡ Err (fault_on 4 reasons.Frames) }
    ensures held { schedule_said [] (codes "epoch 5\nstart\nat 100003\nhold MM for 3\nend\n")
        ≡ Err (fault_on 4 reasons.Frames) }
    ensures seconds { period_said (codes "10s") ≡ Some 10 }
    ensures minutes { period_said (codes "10m") ≡ None }
{}

/// A plan with dates and times of day, also within a telecommand, and its scenario's text, whose epoch has no date.
pub fn worked_dates()
    ensures { IsSaid (schedule_said dictionary dated_plan) dated_scenario }
{}

/// Faults of dates with their lines and words.
pub fn worked_date_faults()
    ensures form { schedule_said [] (codes "epoch 5 is today\n")
        ≡ Err (fault_on 1 (reasons.Date 4 dates.Form)) }
    ensures day { schedule_said [] (codes "epoch 5 is 2026-02-30T18:00:00Z\n")
        ≡ Err (fault_on 1 (reasons.Date 4 dates.Day)) }
    ensures clock { schedule_said [] (codes "epoch 5 is 2026-11-29T18:00:00Z\nstart\nat 24:00:00\n")
        ≡ Err (fault_on 3 (reasons.Date 2 dates.Clock)) }
    ensures unbound { schedule_said [] (codes "epoch 5\nstart\nat 2026-11-29T18:00:00Z\n")
        ≡ Err (fault_on 3 (reasons.Date 2 dates.Unbound)) }
    ensures early { schedule_said [] (codes
        "epoch 5 is 2026-11-29T18:00:00Z\nstart\nfrom 18:00:00 to 2026-11-29T17:59:59Z\n")
        ≡ Err (fault_on 3 (reasons.Date 4 dates.Early)) }
    ensures late { schedule_said [] (codes
        "epoch 5 is 2026-11-29T18:00:00Z\nstart\nsend sc.jump_ats time=2199-01-01T00:00:00Z\n")
        ≡ Err (fault_on 3 (reasons.Date 3 dates.Late)) }
    ensures frames { schedule_said [] (codes
        "epoch 5 is 2026-11-29T18:00:00Z\nstart\nat 2026-12-31T18:00:00Z\n")
        ≡ Err (fault_on 3 reasons.Frames) }
{}
