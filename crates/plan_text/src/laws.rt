//! Laws of plans, as contracts of functions that do nothing.
ghost use Rattle.std.specs.Prelude.{◌≡◌, ◌∷◌, [], ℕ, List, Ok, Err, codes, map, true, Some};
ghost use Rattle.std.specs.List.{AllByRecursion, slice_split};
ghost use Rattle.row_forms.specs.Words.{words};
ghost use Rattle.row_forms.specs.declared.fault.Reason.TheVariants as word_reasons;
ghost use Rattle.telecommands.specs.declared.fault.CommandFault.TheVariants as command_faults;
ghost use Rattle.telecommands.specs.Dictionary.{dictionary};
ghost use Rattle.plan_text.specs.declared.fault.PlanReason.TheVariants as reasons;
ghost use Rattle.plan_text.specs.declared.stage.Stage.TheVariants as stages;
ghost use Rattle.telecommands.specs.declared.command.Command.{Command};
ghost use Rattle.table_texts.specs.Lines.{kept_of};
ghost use Rattle.telecommands.specs.Commands.{are_good};
ghost use Rattle.scenario.specs.Words.{words as scenario_words};
ghost use Rattle.scenario.specs.declared.sentence.Place.{Place};
ghost use Rattle.scenario.specs.declared.sentence.Sentence.TheVariants as says;
ghost use Rattle.scenario.specs.Sentences.{is_in_frames, line_says};
ghost use Rattle.scenario.specs.Standing.{is_lf};
ghost use Rattle.scenario.specs.Texts.{whole_lines, Ended, reading};
ghost use Rattle.plan_text.specs.Lines.{line_bytes, text_of, sent_line};
ghost use Rattle.plan_text.specs.Readings.{as_line};
ghost use Rattle.plan_text.specs.Items.{items_of, ticks_in, plan_items};
ghost use Rattle.plan_text.specs.Frames.{head_said, frames_said};
ghost use Rattle.plan_text.specs.Plans.{scenario_said, plan_said, packet_sent, line_said, fault_on, word_fault};
ghost use Rattle.plan_text.specs.Worked.{plan, scenario, at_frame};

/// A plan with each kind of line, and its scenario.
pub fn worked_plan()
    ensures { scenario_said dictionary plan ≡ Ok scenario }
{}

/// Faults with their lines: what stands out of its place, times that go back or lie before the epoch, an end that is missing, that comes
/// too early or that isn't the last line, and a telecommand's word.
pub fn worked_faults()
    ensures place { scenario_said [] (codes "epoch 5\nhold MM\n") ≡ Err (fault_on 2 reasons.Place) }
    ensures word { scenario_said [] (codes "epoch 5\n\nplay\n") ≡ Err (fault_on 3 reasons.Word) }
    ensures epoch { scenario_said [] (codes "epoch 4294000001\n") ≡ Err (fault_on 1 reasons.Epoch) }
    ensures past { scenario_said [] (codes "epoch 5\nstart\nat +0:00:02\nframe 1\nend\n")
        ≡ Err (fault_on 4 reasons.Past) }
    ensures early { scenario_said [] (codes "epoch 5\nstart\nat 4\nend\n")
        ≡ Err (fault_on 3 reasons.Early) }
    ensures time { scenario_said [] (codes "epoch 5\nstart\nat 0:00:02\nend\n")
        ≡ Err (fault_on 3 (word_fault 2 word_reasons.Time)) }
    ensures begun { scenario_said [] (codes "epoch 5\nstart\nhold MM\nend at 5\n")
        ≡ Err (fault_on 4 reasons.Begun) }
    ensures end { scenario_said [] (codes "epoch 5\nstart\ntick\n") ≡ Err (fault_on 4 reasons.End) }
    ensures behind { scenario_said [] (codes "epoch 5\nstart\nend\n# late\ntick\n")
        ≡ Err (fault_on 5 reasons.Behind) }
    ensures command { scenario_said dictionary
        (codes "epoch 5\nstart\nsend mm.peek width=8 addres=1\n")
        ≡ Err (fault_on 3 (reasons.Command (command_faults.Row
        (record { word = 4; reason = word_reasons.Key })))) }
    ensures items { line_said [] (at_frame 3 64) (words (codes "hold MM")) ≡ Err reasons.Items }
    ensures frames { line_said [] (at_frame 100000 0) (words (codes "tick")) ≡ Err reasons.Frames }
    ensures last { line_said [] (at_frame 0 0) (words (codes "frame 100001")) ≡ Err reasons.Frames }
{}

/// Each item stands in the frame that has come where the plan says it: the number of ticks before it in the scenario is that frame's.
/// No item is lost, and none is added.
pub fn items_keep_their_frames()
    ensures { (cs : List Command) (text : List ℕ) (lines : List (List (List ℕ)))
        → plan_said cs text ≡ Ok lines
        → items_of 0 lines ≡ plan_items cs stages.Opening (kept_of 1 text) }
{}

/// A scenario that is made has the plan's lines, one by one, and each of them has its words: as a scenario's reader cuts it.
pub fn scenarios_have_their_lines()
    ensures lines { (cs : List Command) (text : List ℕ) (lines : List (List (List ℕ)))
        → are_good cs ≡ true → plan_said cs text ≡ Ok lines
        → whole_lines true (slice_split is_lf (text_of lines)) ≡ map as_line lines }
    ensures words { (cs : List Command) (text : List ℕ) (lines : List (List (List ℕ)))
        → are_good cs ≡ true → plan_said cs text ≡ Ok lines
        → AllByRecursion (λ line. scenario_words (line_bytes line) ≡ line) lines }
{}

/// The line of a `send` is read by a scenario's reader, wherever it may stand, as the packet that the words behind `send` say.
pub fn sent_lines_say()
    ensures { (cs : List Command) (epoch : ℕ) (ws : List (List ℕ)) (place : Place) (packet : List ℕ)
        → are_good cs ≡ true → is_in_frames place ≡ true
        → packet_sent cs epoch ws ≡ Ok packet
        → line_says place (line_bytes (sent_line packet)) ≡ Ok (Some (says.Send packet)) }
{}

/// A scenario that is made and is read without fault gives the plan's header and its frames: as many as it has ticks, each with exactly
/// the items that the plan says where this frame has come, in their order.
pub fn scenarios_give_their_frames()
    ensures { (cs : List Command) (text : List ℕ) (lines : List (List (List ℕ)))
        → are_good cs ≡ true → plan_said cs text ≡ Ok lines
        → (reading (record { bytes = text_of lines; closed = true })).ending ≡ Ended
        → (reading (record { bytes = text_of lines; closed = true })).items
        ≡ head_said [] lines ∷ frames_said (ticks_in lines) 0
        (plan_items cs stages.Opening (kept_of 1 text)) }
{}
