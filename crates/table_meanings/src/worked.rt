//! A text of each kind of table, and the entries that it means. What its words mean, and what the loader reads in its file, are the entries
//! that are written by hand.
ghost use Rattle.std.specs.Prelude.{◌≡◌, ◌∷◌, ◌++◌, [], map, take, drop, codes, decimal, Some, None, Ok};
ghost use Rattle.std.specs.List.{range_with_len};
ghost use Rattle.hs_tables.specs.Apps as apps;
ghost use Rattle.hs_tables.specs.Events as events;
ghost use Rattle.hs_tables.specs.Counters as counters;
ghost use Rattle.hs_tables.specs.Actions as actions;
ghost use Rattle.md_dwell.specs.Tables.{dwell_of};
ghost use Rattle.cs_slices.specs.Tables.{segments_of};
ghost use Rattle.lc_watch.specs.Watchpoints as watchpoints;
ghost use Rattle.lc_watch.specs.Watchpoints.{operator_of};
ghost use Rattle.lc_watch.specs.declared.watchpoints.Operator.TheVariants.{Less, LessOrEqual, NotEqual, Equal, GreaterOrEqual, Greater};
ghost use Rattle.lc_watch.specs.Expressions.{word_of};
ghost use Rattle.lc_watch.specs.declared.expressions.Word.TheVariants.{Watch, And, Or, Xor, Not};
ghost use Rattle.table_forms.specs.Layouts.{operators, steps};
ghost use Rattle.lc_watch.specs.Actionpoints as actionpoints;
ghost use Rattle.sc_tables.specs.Absolute.{stored_ats};
ghost use Rattle.sc_tables.specs.Relative.{stored_rts};
ghost use Rattle.sc_tables.specs.Spelling.{timed_spelled, relative_spelled};
ghost use Rattle.telecommands.specs.Dictionary.{dictionary};
ghost use Rattle.table_meanings.specs.Entries.{entries_meant};
ghost use Rattle.table_meanings.specs.Tables.{counters_meaning, apps_meaning, events_meaning, messages_meaning, dwells_meaning, segments_meaning, watchpoints_meaning, actionpoints_meaning};
ghost use Rattle.table_meanings.specs.Sequences.{timed_meant, relative_meant, parted, sequence_meant};
ghost use Rattle.table_meanings.specs.Worked.{behind_name, loaded, counters_text, counters_rows, apps_text, apps_rows, events_text, events_rows, dwell_text, dwell_table, checksum_text, checksum_rows, watch_text, watch_rows, points_text, points_rows, messages_text, messages_rows, absolute_text, absolute_commands, relative_text, relative_commands, bytes_text, bytes_left, bytes_commands};

/// Names, cycles and actions of Health and Safety, with entries left out, a comment and an entry in bytes.
pub fn hs_texts_in_entries()
    ensures counters { entries_meant (counters_meaning None) 32 (behind_name counters_text)
        ≡ map Some counters_rows }
    ensures counters_read { loaded counters.rows_of counters_text ≡ Some counters_rows }
    ensures apps { entries_meant (apps_meaning None) 32 (behind_name apps_text)
        ≡ map Some apps_rows }
    ensures apps_read { loaded apps.rows_of apps_text ≡ Some apps_rows }
    ensures events { entries_meant (events_meaning None) 16 (behind_name events_text)
        ≡ map Some events_rows }
    ensures events_read { loaded events.rows_of events_text ≡ Some events_rows }
    ensures messages { entries_meant (messages_meaning None dictionary) 8
        (behind_name messages_text) ≡ map Some messages_rows }
    ensures messages_read { loaded actions.rows_of messages_text ≡ Some messages_rows }
{}

/// A dwell table, and a checksum table.
pub fn memory_texts_in_entries()
    ensures dwell { entries_meant (dwells_meaning None) 25 (drop 1 (behind_name dwell_text))
        ≡ map Some dwell_table.entries }
    ensures dwell_read { loaded dwell_of dwell_text ≡ Some dwell_table }
    ensures checksum { entries_meant (segments_meaning None) 16 (behind_name checksum_text)
        ≡ map Some checksum_rows }
    ensures checksum_read { loaded segments_of checksum_text ≡ Some checksum_rows }
{}

/// Watchpoints with words for their types and operators, and an actionpoint with an expression.
pub fn limit_texts_in_entries()
    ensures watch { entries_meant (watchpoints_meaning None) 32 (behind_name watch_text)
        ≡ map Some watch_rows }
    ensures watch_read { loaded watchpoints.rows_of watch_text ≡ Some watch_rows }
    ensures points { entries_meant (actionpoints_meaning None) 16 (behind_name points_text)
        ≡ map Some points_rows }
    ensures points_read { loaded actionpoints.rows_of points_text ≡ Some points_rows }
{}

/// Commands of an absolute and of a relative sequence, and bytes in place of words.
pub fn sequence_texts_in_commands()
    ensures absolute { sequence_meant (timed_meant None dictionary) timed_spelled
        (behind_name absolute_text) ≡ Some (parted absolute_commands []) }
    ensures absolute_read { loaded stored_ats absolute_text ≡ Some (Ok absolute_commands) }
    ensures relative { sequence_meant (relative_meant None dictionary) relative_spelled
        (behind_name relative_text) ≡ Some (parted relative_commands []) }
    ensures relative_read { loaded stored_rts relative_text ≡ Some (Ok relative_commands) }
    ensures bytes { sequence_meant (relative_meant None dictionary) relative_spelled
        (behind_name bytes_text) ≡ Some (parted (take 1 relative_commands) bytes_left) }
    ensures bytes_read { loaded stored_rts bytes_text ≡ Some (Ok bytes_commands) }
{}

/// The words of operators and of the steps of expressions, and what the loader makes of their numbers.
pub fn choices_in_entries()
    ensures operators { map (λ c. c.text.now) operators ≡ codes "<" ∷ codes "<=" ∷ codes "!="
        ∷ codes "==" ∷ codes ">=" ∷ codes ">" ∷ [] }
    ensures compared { map (λ c. operator_of c.number) operators
        ≡ map Some (Less ∷ LessOrEqual ∷ NotEqual ∷ Equal ∷ GreaterOrEqual ∷ Greater ∷ []) }
    ensures steps { map (λ c. c.text.now) steps
        ≡ map (λ n. codes "w" ++ decimal n) (range_with_len 1 32)
        ++ (codes "and" ∷ codes "or" ∷ codes "xor" ∷ codes "not" ∷ []) }
    ensures worked { map (λ c. word_of c.number) steps ≡ map Watch (range_with_len 0 32)
        ++ (And ∷ Or ∷ Xor ∷ Not ∷ []) }
{}
