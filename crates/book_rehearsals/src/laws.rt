//! Laws of the definitions, as contracts of functions that do nothing.
ghost use Rattle.std.specs.Prelude.{◌≡◌, ◌∷◌, ◌++◌, [], ℕ, List, map, codes, Some};
ghost use Rattle.fsw_outside.specs.MemShelf.{told_content, fault_count};
ghost use Rattle.fsw_outside.specs.declared.mem_shelf.MemShelf.{MemShelf};
ghost use Rattle.subjects.specs.Plans.{Simulated};
ghost use Rattle.subjects.specs.Own.{own_subjects};
ghost use Rattle.rehearsal.specs.Words.{Asked, accepted_words};
ghost use Rattle.rehearsal.specs.Beside.{crowd_for};
ghost use Rattle.rehearsal.specs.Promise.{ShelfUse, SinkUse, NoneFailed, Promise};
ghost use Rattle.rehearsal.specs.declared.report.Report.{Report};
ghost use Rattle.load_books.specs.Books.{BookMade};
ghost use Rattle.ground_books.specs.Manifests.{manifest_said};
ghost use Rattle.ground_books.specs.Built.{Built, built_said};
ghost use Rattle.ground_runs.specs.Rehearsing.{silent};
ghost use Rattle.ground_runs.specs.KeptLogs.{file_use, IsLog};
ghost use Rattle.book_rehearsals.specs.ShelvedBooks.{files_in_book, stored_in_book, scenario_name, names_in_book, IsShelved};
ghost use Rattle.book_rehearsals.specs.Rehearsed.{AsksForBook, CanBeRehearsed, CompletesBook};
ghost use Rattle.book_rehearsals.specs.LeftByBooks.{memory_use};
ghost use Rattle.book_rehearsals.specs.Worked.{two_files, three_stored, all_asked};

use fsw_outside::Sink;

/// The files of a book that are written into a folder have the bytes of those that are on the shelf: first its files in the order of their
/// parts, then the scenario; behind these stands the manifest.
pub fn built_files_are_shelved()
    ensures { (b : BookMade) → map (λ (f : Built). f.bytes) (built_said b) ≡ files_in_book b
        ++ (b.scenario ∷ manifest_said b ∷ []) }
{}

/// Over a shelf with a book, words that ask for the book write the whole log of its scenario with its files, where these can be run and
/// nothing fails; or memory ran out before the first frame.
pub fn shelved_books_are_rehearsed<O: Sink>()
    ensures { (b : BookMade) (front words : List (List ℕ)) (shelf : MemShelf) (asked : Asked)
        (report : Report) (subjects : List Simulated) (seen : ShelfUse MemShelf) (out : SinkUse O)
        → IsShelved b front shelf words → seen.told_before ≡ told_content shelf
        → AsksForBook b words asked → CanBeRehearsed b → NoneFailed seen out
        → Promise report words subjects seen out silent
        → CompletesBook report b (crowd_for asked.subjects subjects) seen out }
{}

/// A log that is kept of a shelf with a book, by words that ask for the book, is the whole log of its scenario with its files, where these can
/// be run and the shelf doesn't fail; or memory ran out before the first frame.
pub fn kept_logs_are_of_books()
    ensures { (b : BookMade) (front words : List (List ℕ)) (shelf : MemShelf) (asked : Asked)
        (report : Report) (bytes : List ℕ) (log : IsLog words (memory_use shelf) report bytes)
        → IsShelved b front shelf words → AsksForBook b words asked → CanBeRehearsed b
        → fault_count log.behind ≡ fault_count shelf
        → CompletesBook report b (crowd_for asked.subjects own_subjects)
        (memory_use shelf log.behind) (file_use bytes) }
{}

/// What is on the shelf of a book of two files, and what the words for its rehearsal ask for.
pub fn worked_book()
    ensures stored { stored_in_book two_files ≡ three_stored }
    ensures asked { accepted_words (codes "--" ∷ scenario_name ∷ names_in_book two_files)
        ≡ Some all_asked }
{}
