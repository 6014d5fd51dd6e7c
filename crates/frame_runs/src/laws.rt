//! Laws of the definitions, as contracts of functions that do nothing.

ghost use Rattle.std.specs.Prelude.{◌≡◌, List, [], ◌∷◌, ◌++◌, true, false, length};
ghost use Rattle.scenario.specs.FrameLists.{Frame};
ghost use Rattle.table_files.specs.Kinds.{IsKnown};
ghost use Rattle.table_files.specs.declared.kinds.TableKind.{TableKind};
ghost use Rattle.subjects.specs.Plans.{Simulated};
ghost use Rattle.subjects.specs.Calls.{Call, after_calls};
ghost use Rattle.frame_runs.specs.Runs.{Setup, State, beginning, is_away, lc_input_at, activated_at, sent_at, resets_at, after_frame, run_of, frame_lines, log_of};
ghost use Rattle.frame_runs.specs.Crowds.{crowd_after, calls_in, gone_on, course_of};
ghost use Rattle.app_suite.specs.Applications.{lc_setup, lc_gives};
ghost use Rattle.app_suite.specs.Wakes.{unless};
ghost use Rattle.frame_runs.specs.Rows.{noop_sent, quiet, none_activated, noop_setup, noop_line, refused_line};
ghost use Rattle.active_tables.specs.Tables.{is_loaded, lc_named};

/// A run and its log without frames, and at one frame more.
pub fn runs_go_on()
    ensures none { (setup : Setup) → log_of setup [] ≡ [] }
    ensures more { (setup : Setup) (frames : List Frame) (frame : Frame)
        → log_of setup (frames ++ frame ∷ []) ≡ log_of setup frames
        ++ frame_lines setup frames frame }
    ensures start { (setup : Setup) → run_of setup [] ≡ beginning setup }
    ensures state { (setup : Setup) (frames : List Frame) (frame : Frame)
        → run_of setup (frames ++ frame ∷ []) ≡ after_frame setup (run_of setup frames) frame }
    ensures number { (setup : Setup) (frames : List Frame)
        → (run_of setup frames).number ≡ length frames }
{}

/// A run beside a crowd without frames, and at one frame more.
pub fn courses_go_on()
    ensures none { (setup : Setup) (subjects : List Simulated)
        → course_of setup subjects [] ≡ record { frames = []; subjects = subjects } }
    ensures more { (setup : Setup) (subjects : List Simulated) (frames : List Frame) (frame : Frame)
        → course_of setup subjects (frames ++ frame ∷ [])
        ≡ gone_on setup (course_of setup subjects frames) frame }
    ensures number { (setup : Setup) (subjects : List Simulated) (frames : List Frame)
        → length (course_of setup subjects frames).frames ≡ length frames }
{}

/// The subjects behind a frame are what its calls leave of those before it, and whatever frames follow, the subjects behind them are what a
/// list of calls leaves: so by the laws of calls none that was deleted is in a later list.
pub fn crowds_are_called()
    ensures frame { (setup : Setup) (s : State) (frame : Frame) (subjects : List Simulated)
        → crowd_after setup s frame subjects
        ≡ after_calls subjects (calls_in (resets_at setup (activated_at setup s frame) frame)
        (sent_at setup (activated_at setup s frame) frame)) }
    ensures later { (setup : Setup) (subjects : List Simulated) (frames more : List Frame)
        → (calls : List Call) × ((course_of setup subjects (frames ++ more)).subjects
        ≡ after_calls (course_of setup subjects frames).subjects calls) }
{}

/// Each kind of table that is known by a name has an application that loads it.
pub fn known_tables_are_loaded()
    ensures { (kind : TableKind) → IsKnown kind → is_loaded kind ≡ true }
{}

/// The limit checker is there in a run exactly where a table of it is named. Where it isn't, its history stays empty, as no wakeup is its.
pub fn limit_checker_is_there()
    ensures there { (setup : Setup) (frames : List Frame)
        → (run_of setup frames).pipes.watched ≡ lc_named setup.files }
    ensures away { (setup : Setup) (frames : List Frame) → lc_named setup.files ≡ false
        → (run_of setup frames).lc ≡ [] }
    ensures silent { (setup : Setup) (s : State) (frame : Frame) → s.pipes.watched ≡ false
        → unless (is_away s) (lc_gives (lc_setup s.tables) s.lc (lc_input_at setup s)) ≡ [] }
{}

/// A run of two frames in which MM alone is woken, and the first of which sends it a no-op: its log is the event that answers it, byte by byte.
/// A run of one frame that names a file which isn't there: its log is the event of the refused activation.
pub fn worked_run()
    ensures answered { log_of noop_setup (noop_sent ∷ quiet ∷ []) ≡ noop_line }
    ensures refused { log_of noop_setup (none_activated ∷ []) ≡ refused_line }
{}
