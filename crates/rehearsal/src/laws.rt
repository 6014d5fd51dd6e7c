//! Laws of rehearsals: each function answers nothing, and its contract is the law.

ghost use Rattle.std.specs.Prelude.{◌≡◌, ℕ, ◌+◌, ◌<◌, true, false, List, [], ◌∷◌, Option, Some, None, IsSome, codes};
ghost use Rattle.fsw_outside.specs.Files.{Content};
ghost use Rattle.scenario.specs.Texts.{Text, Ended, Open, reading};
ghost use Rattle.active_tables.specs.declared.loading.TablesFault.{TablesFault};
ghost use Rattle.rehearsal.specs.Words.{drill_in, accepted_words};
ghost use Rattle.rehearsal.specs.Files.{Refusal};
ghost use Rattle.rehearsal.specs.Lines.{Rehearsal, Rehearsed, HasMemory, FailsOn, Refuses, IsFaulty, ReadsText, RunsText, IsDrill};
ghost use Rattle.rehearsal.specs.Lines.{SaysUnread, SaysFile, SaysLine};
ghost use Rattle.rehearsal.specs.Outcome.{drill_of, refused_read, HasCauses, GivesReads, IsRefusedAt, Rehearses};
ghost use Rattle.rehearsal.specs.Report.{error_line};
ghost use Rattle.rehearsal.specs.declared.report.Status.TheVariants as statuses;

/// What the headline's steps outcome and causes say of accepted words is `Rehearsed`, where both objects tell.
pub fn rehearsals_are_told()
    ensures { (r : Rehearsal) (told : Option Content) (held : Option (List ℕ))
        → Rehearses r.report r.asked r.crowd r.seen r.before r.after
        → HasCauses r.report.status told r.seen.faults_before r.seen.faults_now
        held r.wrote_before r.wrote_now
        → IsSome told → IsSome held → Rehearsed r }
{}

/// The first line of this list that holds decides how a rehearsal of accepted words ends over a shelf and an output that
/// tell, unless memory ran out: from each line's condition to the report. Words that aren't accepted are refused by the
/// headline's own step.
pub fn first_line_decides()
    // The shelf failed on a FILE.
    ensures unread { (r : Rehearsal) (file : ℕ) → Rehearsed r → FailsOn file r
        → SaysUnread r.report file }

    // A FILE is too long, or its headers aren't in order.
    ensures refused { (r : Rehearsal) (refusal : Refusal) → Rehearsed r → HasMemory r
        → Refuses refusal r
        → SaysFile r.report refusal.file 0 refusal.reason }

    // An entry of a table isn't in order.
    ensures faulty { (r : Rehearsal) (fault : TablesFault) → Rehearsed r → HasMemory r
        → IsFaulty fault r
        → SaysFile r.report fault.file fault.entry (fault.reason + 10) }

    // The text has no header: it is bad or unended, or reading failed.
    ensures headless { (r : Rehearsal) (files : List (List ℕ)) (text : Text) (line reason : ℕ)
        → Rehearsed r → HasMemory r → ReadsText files text r → (reading text).items ≡ []
        → IsRefusedAt (reading text) line reason → SaysLine r.report line reason }
    ensures headless_open { (r : Rehearsal) (files : List (List ℕ)) (text : Text)
        → Rehearsed r → HasMemory r → ReadsText files text r → (reading text).items ≡ []
        → (reading text).ending ≡ Open → SaysUnread r.report 0 }

    // The map refuses the read of an entry.
    ensures unmapped { (r : Rehearsal) (files : List (List ℕ)) (text : Text) (file entry : ℕ)
        → Rehearsed r → HasMemory r → ReadsText files text r
        → refused_read files (reading text).items ≡ Some (file, entry)
        → SaysFile r.report file entry 10 }

    // The output failed.
    ensures unwritten { (r : Rehearsal) → Rehearsed r → r.wrote_before < r.wrote_now
        → r.report.status ≡ statuses.WriteFailed }

    // The text ended well.
    ensures ended { (r : Rehearsal) (files : List (List ℕ)) (text : Text)
        → Rehearsed r → HasMemory r → RunsText files text r → (reading text).ending ≡ Ended
        → r.report.status ≡ statuses.Done }

    // It is bad or unended.
    ensures bad { (r : Rehearsal) (files : List (List ℕ)) (text : Text) (line reason : ℕ)
        → Rehearsed r → HasMemory r → RunsText files text r → IsRefusedAt (reading text) line reason
        → SaysLine r.report line reason }

    // It is open.
    ensures cut_off { (r : Rehearsal) (files : List (List ℕ)) (text : Text)
        → Rehearsed r → HasMemory r → RunsText files text r → (reading text).ending ≡ Open
        → SaysUnread r.report 0 }
{}

/// How a rehearsal of a generated scenario ends, which is drawn from k, where the shelf didn't fail. The first of these lines
/// that holds decides, behind those of the FILEs and of their tables, and that of the output, which are said above of both
/// kinds of scenario.
pub fn drill_is_decided()
    // The map refuses the read of an entry.
    ensures unmapped { (r : Rehearsal) (files : List (List ℕ)) (k file entry : ℕ)
        → Rehearsed r → HasMemory r → IsDrill k files r
        → refused_read files (reading (drill_of k)).items ≡ Some (file, entry)
        → SaysFile r.report file entry 10 }

    // All went well.
    ensures ended { (r : Rehearsal) (files : List (List ℕ)) (k : ℕ)
        → Rehearsed r → HasMemory r → IsDrill k files r → GivesReads files (reading (drill_of k))
        → r.wrote_now ≡ r.wrote_before → r.report.status ≡ statuses.Done }
{}

/// What some words ask for, computed from the definitions: the option and the flag anywhere before `--`, names behind
/// it, the words that are refused.
pub fn worked_words()
    ensures plain { accepted_words (codes "s" ∷ [])
        ≡ Some (record { workers = 1; subjects = false; scenario = codes "s"; files = [] }) }
    ensures by_hand { accepted_words
        (codes "--workers" ∷ codes "3" ∷ codes "s" ∷ codes "a" ∷ codes "b" ∷ [])
        ≡ Some (record {
          workers = 3;
          subjects = false;
          scenario = codes "s";
          files = codes "a" ∷ codes "b" ∷ [];
        }) }
    ensures equals { accepted_words (codes "--workers=3" ∷ codes "s" ∷ [])
        ≡ Some (record { workers = 3; subjects = false; scenario = codes "s"; files = [] }) }
    ensures behind { accepted_words (codes "s" ∷ codes "--workers" ∷ codes "3" ∷ [])
        ≡ Some (record { workers = 3; subjects = false; scenario = codes "s"; files = [] }) }
    ensures between { accepted_words
        (codes "s" ∷ codes "f1" ∷ codes "--workers" ∷ codes "3" ∷ codes "f2" ∷ [])
        ≡ Some (record {
          workers = 3;
          subjects = false;
          scenario = codes "s";
          files = codes "f1" ∷ codes "f2" ∷ [];
        }) }
    ensures dashes { accepted_words (codes "--" ∷ codes "--workers" ∷ codes "-x" ∷ [])
        ≡ Some (record {
          workers = 1;
          subjects = false;
          scenario = codes "--workers";
          files = codes "-x" ∷ [];
        }) }
    ensures dash { accepted_words (codes "-" ∷ [] ∷ [])
        ≡ Some (record { workers = 1; subjects = false; scenario = codes "-"; files = [] ∷ [] }) }
    ensures one { accepted_words (codes "--workers" ∷ codes "01" ∷ codes "s" ∷ [])
        ≡ Some (record { workers = 1; subjects = false; scenario = codes "s"; files = [] }) }
    ensures most { accepted_words (codes "--workers" ∷ codes "16" ∷ codes "s" ∷ [])
        ≡ Some (record { workers = 16; subjects = false; scenario = codes "s"; files = [] }) }
    ensures drill_names { accepted_words (codes "drill:" ∷ codes "drill:1234567" ∷ [])
        ≡ Some (record {
          workers = 1;
          subjects = false;
          scenario = codes "drill:";
          files = codes "drill:1234567" ∷ [];
        }) }
    ensures flag { accepted_words (codes "--subjects" ∷ codes "s" ∷ [])
        ≡ Some (record { workers = 1; subjects = true; scenario = codes "s"; files = [] }) }
    ensures flag_behind { accepted_words
        (codes "--workers" ∷ codes "3" ∷ codes "s" ∷ codes "a" ∷ codes "--subjects" ∷ codes "b"
        ∷ []) ≡ Some (record {
          workers = 3;
          subjects = true;
          scenario = codes "s";
          files = codes "a" ∷ codes "b" ∷ [];
        }) }
    ensures flag_drill { accepted_words (codes "drill:7" ∷ codes "--subjects" ∷ [])
        ≡ Some (record { workers = 1; subjects = true; scenario = codes "drill:7"; files = [] }) }
    ensures flag_dashes { accepted_words (codes "--" ∷ codes "--subjects" ∷ codes "--subjects" ∷ [])
        ≡ Some (record {
          workers = 1;
          subjects = false;
          scenario = codes "--subjects";
          files = codes "--subjects" ∷ [];
        }) }
    ensures flag_dashed { accepted_words (codes "--subjects" ∷ codes "--" ∷ codes "--subjects" ∷ [])
        ≡ Some (record {
          workers = 1;
          subjects = true;
          scenario = codes "--subjects";
          files = [];
        }) }
    ensures flag_alone { accepted_words (codes "--subjects" ∷ []) ≡ None }
    ensures flag_twice { accepted_words (codes "--subjects" ∷ codes "s" ∷ codes "--subjects" ∷ [])
        ≡ None }
    ensures flag_value { accepted_words (codes "--subjects=true" ∷ codes "s" ∷ []) ≡ None }
    ensures flag_abbreviated { accepted_words (codes "--subject" ∷ codes "s" ∷ []) ≡ None }
    ensures none { accepted_words ([]) ≡ None }
    ensures zero { accepted_words (codes "--workers" ∷ codes "0" ∷ codes "s" ∷ []) ≡ None }
    ensures many { accepted_words (codes "--workers" ∷ codes "17" ∷ codes "s" ∷ []) ≡ None }
    ensures long { accepted_words (codes "--workers" ∷ codes "016" ∷ codes "s" ∷ []) ≡ None }
    ensures no_number { accepted_words (codes "--workers" ∷ codes "x" ∷ codes "s" ∷ []) ≡ None }
    ensures no_value { accepted_words (codes "s" ∷ codes "--workers" ∷ []) ≡ None }
    ensures twice { accepted_words
        (codes "--workers" ∷ codes "3" ∷ codes "--workers" ∷ codes "3" ∷ codes "s" ∷ []) ≡ None }
    ensures abbreviated { accepted_words (codes "--work" ∷ codes "3" ∷ codes "s" ∷ []) ≡ None }
    ensures unknown { accepted_words (codes "s" ∷ codes "-x" ∷ []) ≡ None }
    ensures help { accepted_words (codes "--help" ∷ []) ≡ None }
    ensures short_help { accepted_words (codes "s" ∷ codes "-h" ∷ []) ≡ None }
    ensures version { accepted_words (codes "--version" ∷ []) ≡ None }
    ensures drill { accepted_words (codes "drill:000007" ∷ [])
        ≡ Some (record {
          workers = 1;
          subjects = false;
          scenario = codes "drill:000007";
          files = [];
        }) }
    ensures drilled { drill_in (codes "drill:7") ≡ Some 7 }
    ensures drilled_zeros { drill_in (codes "drill:000007") ≡ Some 7 }
    ensures drilled_least { drill_in (codes "drill:0") ≡ Some 0 }
    ensures drilled_most { drill_in (codes "drill:999999") ≡ Some 999999 }
    ensures undrilled { drill_in (codes "drill:") ≡ None }
    ensures undrilled_long { drill_in (codes "drill:1234567") ≡ None }
    ensures undrilled_sign { drill_in (codes "drill:+7") ≡ None }
    ensures undrilled_case { drill_in (codes "Drill:7") ≡ None }
{}

/// The line of each status on the error output, of reports whose fields all differ; that of a failed read of the scenario; and a line
/// number of all digits.
pub fn status_rows()
    ensures done { error_line
        (record { status = statuses.Done; file = 100; line = 1000; reason = 15; frames = 7 })
        ≡ [] }
    ensures words { error_line
        (record {
          status = statuses.WordsRefused;
          file = 100;
          line = 1000;
          reason = 15;
          frames = 7;
        })
        ≡ codes "vigil: words refused\n" }
    ensures file { error_line
        (record { status = statuses.FileRefused; file = 100; line = 1000; reason = 15; frames = 7 })
        ≡ codes "vigil: file 100 refused, reason 15, entry 1000\n" }
    ensures scenario { error_line
        (record {
          status = statuses.ScenarioRefused;
          file = 100;
          line = 1000;
          reason = 15;
          frames = 7;
        })
        ≡ codes "vigil: scenario refused at line 1000, reason 15\n" }
    ensures read { error_line
        (record { status = statuses.ReadFailed; file = 100; line = 1000; reason = 15; frames = 7 })
        ≡ codes "vigil: read failed on file 100\n" }
    ensures write { error_line
        (record { status = statuses.WriteFailed; file = 100; line = 1000; reason = 15; frames = 7 })
        ≡ codes "vigil: write failed\n" }
    ensures memory { error_line
        (record { status = statuses.NoMemory; file = 100; line = 1000; reason = 15; frames = 7 })
        ≡ codes "vigil: out of memory\n" }
    ensures scenario_read { error_line
        (record { status = statuses.ReadFailed; file = 0; line = 0; reason = 0; frames = 7 })
        ≡ codes "vigil: read failed on file 0\n" }
    ensures last_line { error_line
        (record {
          status = statuses.ScenarioRefused;
          file = 0;
          line = 1234567890;
          reason = 7;
          frames = 9;
        })
        ≡ codes "vigil: scenario refused at line 1234567890, reason 7\n" }
{}
