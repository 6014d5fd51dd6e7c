//! Laws of the definitions, as contracts of functions that do nothing.
ghost use Rattle.std.specs.Prelude.{◌≡◌, ◌∷◌, [], codes, Ok, Err};
ghost use Rattle.load_books.specs.declared.fault.BookReason.TheVariants as reasons;
ghost use Rattle.load_books.specs.declared.fault.BookFault.TheVariants as faults;
ghost use Rattle.load_books.specs.Cuts.{cut_of, part_of};
ghost use Rattle.load_books.specs.Contents.{no_parts, all_added};
ghost use Rattle.load_books.specs.Naming.{line_said, plan_said};
ghost use Rattle.load_books.specs.Worked.{files, parts, parts_text};

/// A text in which parts begin at lines 3 and 6, the second with spaces in front and without an LF at its end.
pub fn worked_parts()
    ensures { cut_of 1 parts_text ≡ parts }
{}

/// Names of a table and of a load among two of each, words that are no names, and names that aren't there or of another kind.
pub fn worked_names()
    ensures table { line_said files (codes "activate" ∷ codes "night" ∷ [])
        ≡ Ok (codes "activate" ∷ codes "3" ∷ []) }
    ensures load { line_said files (codes "send" ∷ codes "mm.load_file" ∷ codes "load=patch" ∷ [])
        ≡ Ok (codes "send" ∷ codes "mm.load_file" ∷ codes "load=2" ∷ []) }
    ensures number { line_said files (codes "activate" ∷ codes "2" ∷ [])
        ≡ Ok (codes "activate" ∷ codes "2" ∷ []) }
    ensures other { line_said files (codes "send" ∷ codes "mm.peek" ∷ codes "load=patch" ∷ [])
        ≡ Ok (codes "send" ∷ codes "mm.peek" ∷ codes "load=patch" ∷ []) }
    ensures unknown { line_said files (codes "activate" ∷ codes "noon" ∷ []) ≡ Err reasons.Unknown }
    ensures activates { line_said files (codes "activate" ∷ codes "patch" ∷ [])
        ≡ Err reasons.Activates }
    ensures loads { line_said files (codes "send" ∷ codes "mm.load_file" ∷ codes "load=night" ∷ [])
        ≡ Err reasons.Loads }
{}

/// Lines of a plan behind line 20, and a fault in the second one.
pub fn worked_plan()
    ensures text { plan_said 20 files 1 (codes "# activate\n" ∷ codes "  activate  night\n"
        ∷ codes "\n" ∷ codes "end" ∷ []) ≡ Ok (codes "# activate\nactivate 3\n\nend\n") }
    ensures fault { plan_said 20 files 1 (codes "start\n" ∷ codes "activate noon\n" ∷ [])
        ≡ Err (faults.Line 22 reasons.Unknown) }
{}

/// Faults of the lines that begin parts.
pub fn worked_faults()
    ensures kind { all_added no_parts (part_of 4 (codes "tables" ∷ codes "a" ∷ []) [] ∷ [])
        ≡ Err (faults.Line 4 reasons.Kind) }
    ensures extra { all_added no_parts (part_of 4 (codes "plan" ∷ codes "a" ∷ []) [] ∷ [])
        ≡ Err (faults.Line 4 reasons.Kind) }
    ensures name { all_added no_parts (part_of 4 (codes "load" ∷ codes "7a" ∷ []) [] ∷ [])
        ≡ Err (faults.Line 4 reasons.Name) }
    ensures twice { all_added no_parts (part_of 4 (codes "load" ∷ codes "a" ∷ []) []
        ∷ part_of 9 (codes "table" ∷ codes "a" ∷ []) [] ∷ []) ≡ Err (faults.Line 9 reasons.Twice) }
    ensures plans { all_added no_parts (part_of 4 (codes "plan" ∷ []) []
        ∷ part_of 9 (codes "plan" ∷ []) [] ∷ []) ≡ Err (faults.Line 9 reasons.Plans) }
{}
