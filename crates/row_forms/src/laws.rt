//! Laws of the definitions, as contracts of functions that do nothing.
ghost use Rattle.std.specs.Prelude.{◌≡◌, ◌<◌, ◌++◌, ◌∷◌, [], ℕ, List, Option, Some, None, true, false, length, codes, Ok, Err};
ghost use Rattle.std.specs.List.{AllByRecursion};
ghost use Rattle.row_forms.specs.declared.field.Field.{Field};
ghost use Rattle.row_forms.specs.declared.field.Kind.TheVariants.{Number};
ghost use Rattle.row_forms.specs.declared.field.Spelling.{Spelling};
ghost use Rattle.row_forms.specs.declared.field.Spelling.TheVariants.{Mask, Time};
ghost use Rattle.row_forms.specs.declared.field.Width.{Width};
ghost use Rattle.row_forms.specs.declared.field.Width.TheVariants.{U16, U32};
ghost use Rattle.row_forms.specs.Words.{words};
ghost use Rattle.row_forms.specs.Values.{value_said, IsSaidNumber};
ghost use Rattle.row_forms.specs.Rows.{fault_at, row_said, row_shown, row_size, is_row, are_fields};
ghost use Rattle.row_forms.specs.RowNumbers.{numbers_said, numbers_in};
ghost use Rattle.row_forms.specs.Worked.{worked_numbers as numbers_row, worked_block, worked_expression, worked_expression_bytes, worked_name};

use crate::fault::Reason;

/// The words that a row's bytes have say these bytes, whatever the epoch and the number of the first word.
pub fn rows_read_back()
    ensures { (epoch : Option ℕ) (n : ℕ) (fields : List Field) (bytes : List ℕ)
        → are_fields fields ≡ true → AllByRecursion (λ b. b < 256) bytes
        → is_row fields bytes ≡ true → row_said epoch n fields (words (row_shown fields bytes))
        ≡ Ok bytes }
{}

/// The bytes that a number's text says are that number, in as many bytes as its width has.
pub fn values_are_numbers()
    ensures { (epoch : Option ℕ) (w : Width) (s : Spelling) (text bytes : List ℕ)
        → value_said epoch (Number w s) text ≡ Some bytes → IsSaidNumber epoch w s text bytes }
{}

/// The numbers that the words of a row say stand in its bytes, in their order.
pub fn rows_say_numbers()
    ensures { (epoch : Option ℕ) (n : ℕ) (fields : List Field) (ws : List (List ℕ)) (bytes : List ℕ)
        → row_said epoch n fields ws ≡ Ok bytes
        → numbers_said epoch fields ws ≡ Some (numbers_in fields bytes) }
{}

/// A row without a block says as many bytes as its fields have.
pub fn rows_have_sizes()
    ensures { (epoch : Option ℕ) (n size : ℕ) (fields : List Field) (ws : List (List ℕ))
        (bytes : List ℕ) → row_size fields ≡ Some size → row_said epoch n fields ws ≡ Ok bytes
        → length bytes ≡ size }
{}

/// Literal words and the bytes that they say: numbers of each width and spelling, in words as they are shown, and in other words.
pub fn worked_numbers()
    ensures said { row_said None 1 numbers_row
        (words (codes
        " size=8 count=513 length=65538 byte=0xA5 id=0x0887 at=0x00001080 is=<= bits=1,3 time=1002"))
        ≡ Ok (0x08 ∷ 0x02 ∷ 0x01 ∷ 0x00 ∷ 0x01 ∷ 0x00 ∷ 0x02 ∷ 0x00 ∷ 0x00 ∷ 0xA5 ∷ 0x08 ∷ 0x87
        ∷ 0x00 ∷ 0x00 ∷ 0x10 ∷ 0x80 ∷ 0x00 ∷ 0x02 ∷ 0x00 ∷ 0x05 ∷ 0x00 ∷ 0x00 ∷ 0x03 ∷ 0xEA ∷ []) }
    ensures shown { row_shown numbers_row (0x08 ∷ 0x02 ∷ 0x01 ∷ 0x00 ∷ 0x01 ∷ 0x00 ∷ 0x02 ∷ 0x00
        ∷ 0x00 ∷ 0xA5 ∷ 0x08 ∷ 0x87 ∷ 0x00 ∷ 0x00 ∷ 0x10 ∷ 0x80 ∷ 0x00 ∷ 0x02 ∷ 0x00 ∷ 0x05 ∷ 0x00
        ∷ 0x00 ∷ 0x03 ∷ 0xEA ∷ []) ≡ codes
        " size=8 count=513 length=65538 byte=0xA5 id=0x0887 at=0x00001080 is=<= bits=1,3 time=1002" }
    ensures other { row_said (Some 1000) 1 numbers_row
        (words (codes
        "size=0x08 count=0x0201 length=0x10002 byte=165 id=2183 at=4224 is=2 bits=1,3 time=+0:00:02"))
        ≡ row_said None 1 numbers_row (words (codes
        " size=8 count=513 length=65538 byte=0xA5 id=0x0887 at=0x00001080 is=<= bits=1,3 time=1002")) }
    ensures fields { are_fields numbers_row ≡ true }
{}

/// Literal words and bytes of a check, a block, a name and an expression.
pub fn worked_rows()
    ensures checked { row_said None 1 worked_block
        (words (codes "at=0x20 bytes=313233343536373839"))
        ≡ Ok (0x20 ∷ 0xBB ∷ 0x3D ∷ 0x31 ∷ 0x32 ∷ 0x33 ∷ 0x34 ∷ 0x35 ∷ 0x36 ∷ 0x37 ∷ 0x38 ∷ 0x39
        ∷ []) }
    ensures block { row_shown worked_block (0x20 ∷ 0xBB ∷ 0x3D ∷ 0x31 ∷ 0xAF ∷ [])
        ≡ codes " at=0x20 bytes=31AF" }
    ensures named { row_said None 1 worked_expression (words (codes "app=LOAD when=w1,w2,and"))
        ≡ Ok (worked_name ++ worked_expression_bytes) }
    ensures expression { row_shown worked_expression (worked_name ++ worked_expression_bytes)
        ≡ codes " app=LOAD when=w1,w2,and" }
    ensures right { is_row worked_block (0x20 ∷ 0xBB ∷ 0x3D ∷ 0x31 ∷ 0x32 ∷ 0x33 ∷ 0x34 ∷ 0x35
        ∷ 0x36 ∷ 0x37 ∷ 0x38 ∷ 0x39 ∷ []) ≡ true }
    ensures wrong { is_row worked_block (0x20 ∷ 0xBB ∷ 0x3C ∷ 0x31 ∷ 0x32 ∷ 0x33 ∷ 0x34 ∷ 0x35
        ∷ 0x36 ∷ 0x37 ∷ 0x38 ∷ 0x39 ∷ []) ≡ false }
{}

/// The word and the reason of each fault.
pub fn worked_faults()
    ensures missing { row_said None 1 worked_block (words (codes "at=1"))
        ≡ Err (fault_at 2 Reason.Missing) }
    ensures extra { row_said None 1 worked_block (words (codes "at=1 bytes=00 more=1"))
        ≡ Err (fault_at 3 Reason.Extra) }
    ensures key { row_said None 1 worked_block (words (codes "addres=1 bytes=00"))
        ≡ Err (fault_at 1 Reason.Key) }
    ensures over { row_said None 1 worked_block (words (codes "at=256 bytes=00"))
        ≡ Err (fault_at 1 Reason.Number8) }
    ensures odd { row_said None 1 worked_block (words (codes "at=1 bytes=000"))
        ≡ Err (fault_at 2 Reason.Block) }
    ensures name { row_said None 1 worked_expression (words (codes "app=A-B when=w1"))
        ≡ Err (fault_at 1 Reason.Name) }
    ensures step { row_said None 1 worked_expression (words (codes "app=A when=w1,w9"))
        ≡ Err (fault_at 2 Reason.Expression) }
    ensures falling { value_said None (Number U16 Mask) (codes "3,1") ≡ None }
    ensures seventeenth { value_said None (Number U16 Mask) (codes "17") ≡ None }
    ensures none { value_said None (Number U16 Mask) (codes "none") ≡ Some (0 ∷ 0 ∷ []) }
    ensures no_epoch { value_said None (Number U32 Time) (codes "+0:00:02") ≡ None }
    ensures minutes { value_said (Some 0) (Number U32 Time) (codes "+1:60:00") ≡ None }
    ensures hours { value_said (Some 1) (Number U32 Time) (codes "+25:02:03")
        ≡ Some (0x00 ∷ 0x01 ∷ 0x60 ∷ 0x0C ∷ []) }
{}
