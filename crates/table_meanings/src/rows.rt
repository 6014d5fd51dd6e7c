//! What the words of a row mean.
ghost use Rattle.std.specs.Prelude.{◌≡◌, ℕ, List, Option, Some, Ok};
ghost use Rattle.row_forms.specs.declared.field.Field.{Field};
ghost use Rattle.row_forms.specs.Rows.{row_said};
ghost use Rattle.table_meanings.specs.Meanings.{meanings_said, meanings_in};

/// What the words of a row mean stands in its bytes, field by field: numbers, names, and the steps of expressions.
pub fn rows_say_meanings()
    ensures { (epoch : Option ℕ) (n : ℕ) (fields : List Field) (ws : List (List ℕ)) (bytes : List ℕ)
        → row_said epoch n fields ws ≡ Ok bytes
        → meanings_said epoch fields ws ≡ Some (meanings_in fields bytes) }
{}
