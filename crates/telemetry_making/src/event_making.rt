//! The events of the applications: those that they give stand in the table of events, and each of the table's is one of theirs.
ghost use Rattle.std.specs.Prelude.{◌≡◌, ◌<◌, ◌^◌, ◌+◌, ◌++◌, ℕ, Bool, List, Option, [], ◌∷◌, true, codes, map};
ghost use Rattle.std.specs.List.{AllByRecursion};
ghost use Rattle.packet_forms.specs.Built.{event_of};
ghost use Rattle.packet_forms.specs.Names.{is_name};
ghost use Rattle.hs_tables.specs.declared.actions.ActEntry.{ActEntry};
ghost use Rattle.hs_tables.specs.declared.actions.ActRow.{ActRow as MessageRow};
ghost use Rattle.hs_actions.specs.Messages.{event_base};
ghost use Rattle.hs_actions.specs.Answers.{event_out, message_items, performed, report_items};
ghost use Rattle.hs_actions.specs.declared.action.Action.{Action};
ghost use Rattle.hs_actions.specs.declared.action.Source.{Source};
ghost use Rattle.hs_actions.specs.declared.action.Source.TheVariants.{AppMonitor, EventMonitor};
ghost use Rattle.hs_monitors.specs.Messages.{hs_codes};
ghost use Rattle.hs_monitors.specs.Verdicts.{hs_protocol};
ghost use Rattle.mm_core.specs.Messages.{mm_codes};
ghost use Rattle.mm_core.specs.Verdicts.{mm_protocol};
ghost use Rattle.md_dwell.specs.Messages.{md_codes};
ghost use Rattle.md_dwell.specs.Verdicts.{md_protocol};
ghost use Rattle.cs_slices.specs.Messages.{cs_codes, miscompare_event};
ghost use Rattle.cs_slices.specs.Happenings.{Happening, Slice};
ghost use Rattle.cs_slices.specs.Answers.{slice_items};
ghost use Rattle.cs_slices.specs.Verdicts.{cs_protocol};
ghost use Rattle.sc_sequences.specs.Messages.{ats_ended, rts_ended, sc_codes, wrong_in_ats, wrong_in_rts};
ghost use Rattle.sc_tables.specs.Commands.{TimedCommand};
ghost use Rattle.sc_sequences.specs.Answers.{head_items};
ghost use Rattle.sc_sequences.specs.Verdicts.{sc_protocol};
ghost use Rattle.lc_watch.specs.Messages.{firing_event, lc_codes};
ghost use Rattle.lc_watch.specs.Answers.{firing_items};
ghost use Rattle.lc_watch.specs.declared.actionpoints.ActRow.{ActRow};
ghost use Rattle.lc_watch.specs.Verdicts.{lc_protocol};
ghost use Rattle.app_suite.specs.Activations.{table_event};
ghost use Rattle.app_suite.specs.declared.activations.Naming.{Naming};
ghost use Rattle.telemetry_making.specs.Making.{Shows};
ghost use Rattle.telemetry_making.specs.Told.{AreAnswersTold, AreToldItems, IsToldItem, numbers_of};

/// The event of any name, number and type is shown by its words, which say its number, its type, spacecraft 66 and processor 1.
pub fn events_are_shown()
    ensures { (name : List ℕ) (number kind : ℕ) → is_name name ≡ true
        → AllByRecursion (λ b. b < 256) name → number < 2 ^ 16 → kind < 2 ^ 16
        → Shows (codes "event") (number ∷ kind ∷ 66 ∷ 1
        ∷ []) (λ time. event_of name number kind time) }
{}

/// Whatever packet an application reads, and whatever it has come to: the event that answers it stands in the table, with its type,
/// and where the packet is refused, why it refuses a command of this code stands in the table of refusals.
pub fn answers_are_told()
    ensures hs { AreAnswersTold (codes "HS") hs_protocol }
    ensures mm { AreAnswersTold (codes "MM") mm_protocol }
    ensures md { AreAnswersTold (codes "MD") md_protocol }
    ensures cs { AreAnswersTold (codes "CS") cs_protocol }
    ensures sc { AreAnswersTold (codes "SC") sc_protocol }
    ensures lc { AreAnswersTold (codes "LC") lc_protocol }
{}

/// The events that an application gives besides its answers stand in the table, with their type: those of the monitors and message
/// actions, of a miscompare, of a sequence's head, of an actionpoint that fires, and of a line that names a file.
pub fn own_events_are_told()
    ensures monitors { (time : ℕ) (source : Source)
        → AreToldItems (codes "HS") time (map (event_out time source) (1 ∷ 2 ∷ 3 ∷ 4 ∷ 5 ∷ [])) }
    ensures reports { (time : ℕ) (source : Source) (name : List ℕ)
        → AreToldItems (codes "HS") time (report_items time source name) }
    ensures messages { (time : ℕ) (source : Source) (entry : Option ActEntry)
        → AreToldItems (codes "HS") time (message_items time source entry) }
    ensures acted { (time : ℕ) (acts : List MessageRow) (source : Source) (name : List ℕ)
        (action : Action) (went : Bool)
        → AreToldItems (codes "HS") time (performed time acts source name action went) }
    ensures miscompares { (time : ℕ) (happened : List Happening) (slice : Option Slice)
        → AreToldItems (codes "CS") time (slice_items time happened slice) }
    ensures heads { (place time : ℕ) (right : Bool) (packet : List ℕ) (left : List TimedCommand)
        → AreToldItems (codes "SC") time (head_items place time right packet left) }
    ensures firings { (time : ℕ) (row : ActRow)
        → AreToldItems (codes "LC") time (firing_items time row) }
    ensures namings { (time : ℕ) (naming : Naming)
        → IsToldItem (codes "TBL") time (table_event time naming) }
{}

/// The table's events of an application are those of its codes, of its refusals and its own, and no others.
pub fn tables_are_whole()
    ensures hs_done { numbers_of (codes "HS") 2 ≡ map (λ row. 16 + row.0) hs_codes }
    ensures hs_wrong { numbers_of (codes "HS") 3 ≡ (1 ∷ 2 ∷ 3 ∷ [])
        ++ map (λ n. event_base AppMonitor + n) (1 ∷ 2 ∷ 3 ∷ 4 ∷ 5 ∷ [])
        ++ map (λ n. event_base EventMonitor + n) (1 ∷ 2 ∷ 3 ∷ 4 ∷ 5 ∷ []) }
    ensures mm_done { numbers_of (codes "MM") 2 ≡ map (λ row. 16 + row.0) mm_codes }
    ensures mm_wrong { numbers_of (codes "MM") 3 ≡ 1 ∷ 2 ∷ 3 ∷ 4 ∷ 5 ∷ 6 ∷ 7 ∷ 8 ∷ 9 ∷ 10 ∷ 11 ∷ 12
        ∷ [] }
    ensures md_done { numbers_of (codes "MD") 2 ≡ map (λ row. 16 + row.0) md_codes }
    ensures md_wrong { numbers_of (codes "MD") 3 ≡ 1 ∷ 2 ∷ 3 ∷ 4 ∷ 5 ∷ 6 ∷ 7 ∷ [] }
    ensures cs_done { numbers_of (codes "CS") 2 ≡ map (λ row. 16 + row.0) cs_codes }
    ensures cs_wrong { numbers_of (codes "CS") 3 ≡ 1 ∷ 2 ∷ 3 ∷ 4 ∷ 5 ∷ 6 ∷ miscompare_event ∷ [] }
    ensures sc_done { numbers_of (codes "SC") 2 ≡ map (λ row. 16 + row.0) sc_codes
        ++ (ats_ended ∷ rts_ended ∷ []) }
    ensures sc_wrong { numbers_of (codes "SC") 3 ≡ 1 ∷ 2 ∷ 3 ∷ 4 ∷ 5 ∷ 6 ∷ 7 ∷ 8 ∷ 9 ∷ wrong_in_ats
        ∷ wrong_in_rts ∷ [] }
    ensures lc_done { numbers_of (codes "LC") 2 ≡ map (λ row. 16 + row.0) lc_codes }
    ensures lc_wrong { numbers_of (codes "LC") 3 ≡ 1 ∷ 2 ∷ 3 ∷ 4 ∷ 5 ∷ firing_event ∷ [] }
    ensures tables_done { numbers_of (codes "TBL") 2 ≡ 1 ∷ [] }
    ensures tables_wrong { numbers_of (codes "TBL") 3 ≡ 2 ∷ 3 ∷ [] }
{}
