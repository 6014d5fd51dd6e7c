//! The words of rows beside those of a scenario.
ghost use Rattle.std.specs.Prelude.{◌≡◌, ℕ, List};
ghost use Rattle.row_forms.specs.Words.{words, number, hex_said, name_said};
ghost use Rattle.scenario.specs.Words.{words as scenario_words, number as scenario_number, hex as scenario_hex, name_said as scenario_name};

/// A row's line is cut into words, and its numbers, bytes in hexadecimal digits and names are read, as a scenario's are.
pub fn words_are_a_scenarios()
    ensures words { (line : List ℕ) → words line ≡ scenario_words line }
    ensures numbers { (most : ℕ) (word : List ℕ) → number most word ≡ scenario_number most word }
    ensures bytes { (word : List ℕ) → hex_said word ≡ scenario_hex word }
    ensures names { (word : List ℕ) → name_said word ≡ scenario_name word }
{}
