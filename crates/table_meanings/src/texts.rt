//! What whole texts mean.
ghost use Rattle.std.specs.Prelude.{◌≡◌, ℕ, List, Ok};
ghost use Rattle.table_forms.specs.declared.forms.TextForms.{TextForms};
ghost use Rattle.table_forms.specs.Reading.{table_said};
ghost use Rattle.table_meanings.specs.Texts.{AreKnownForms, TextMeans};

/// A text that is taken gives a file in which the loader of the table that the text names reads exactly the entries that the text means,
/// whatever the epoch and the telecommands are: by the layouts that `table_layouts` gives.
pub fn texts_mean_entries()
    ensures { (f : TextForms) (text file : List ℕ) → AreKnownForms f → table_said f text ≡ Ok file
        → TextMeans f text file }
{}
