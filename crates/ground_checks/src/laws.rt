//! Laws of the definitions, as contracts of functions that do nothing.

ghost use Rattle.std.specs.Prelude.{◌≡◌, ◌↔◌, ℕ, true, false, List, map, Option, Some, None};
ghost use Rattle.std.specs.List.{AllByRecursion};
ghost use Rattle.memory_window.specs.declared.regions.Region.{Region};
ghost use Rattle.scenario.specs.Texts.{reading};
ghost use Rattle.active_tables.specs.Tables.{region_fault};
ghost use Rattle.rehearsal.specs.Outcome.{refused_read};
ghost use Rattle.load_books.specs.Books.{is_book_text};
ghost use Rattle.ground_checks.specs.Checked.{AreTaken};
ghost use Rattle.ground_checks.specs.Loading.{AreLoaded, AreLoadedWith, AreFaultless};
ghost use Rattle.ground_faults.specs.HeaderMaps.{map_said};

/// Nothing is found in any file of a list exactly where the program takes all of them and loads their tables, and with a map exactly where
/// the memory of that map gives their reads too.
pub fn checks_are_loading()
    ensures files { (files : List (List ℕ)) → AreFaultless None files ↔ AreLoaded files }
    ensures reads { (regions : List Region) (files : List (List ℕ))
        → AreFaultless (Some regions) files ↔ AreLoadedWith regions files }
{}

/// The map of a scenario is that by which the program asks whether memory gives the reads of files.
pub fn maps_are_headers()
    ensures { (text : List ℕ) (regions : List Region) (files : List (List ℕ))
        → map_said text ≡ Some regions
        → refused_read files (reading (record { bytes = text; closed = true })).items
        ≡ region_fault regions files }
{}

/// Files that `check` took have no fault, where they are no books.
pub fn taken_files_are_faultless()
    ensures { (regions : Option (List Region)) (files : List (List ℕ))
        → AllByRecursion (λ file. is_book_text file ≡ false) files
        → AreTaken regions (map (λ file. Some file) files) → AreFaultless regions files }
{}
