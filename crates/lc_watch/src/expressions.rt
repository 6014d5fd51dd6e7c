//! Expressions over watchpoints in reverse Polish form.
ghost use Rattle.std.specs.Prelude.{◌≡◌, ◌≤◌, ℕ, Bool, false, List, length, option_map, ◌+◌, IfSome};
ghost use Rattle.lc_watch.specs.Expressions.{word_of, with_two, worked, values_left, is_one};

/// How many words an actionpoint has.
pub(crate) const WORDS: usize = 16;

/// A word of an expression.
#[derive(Clone, Copy, Debug, PartialEq, Eq)]
pub enum Word {
    /// The watchpoint in this place, from 0.
    Watch(u8),
    And,
    Or,
    /// Exclusive or.
    Xor,
    Not,
    /// None of these.
    Unknown,
}

impl Word {
    /// The word of a number.
    pub(crate) fn of(number: u16) -> Word
        ensures { result ≡ word_of number }
    {
        if number < 32 {
            return Word::Watch(number as u8);
        }
        match number {
            0x8001 => Word::And,
            0x8002 => Word::Or,
            0x8003 => Word::Xor,
            0x8004 => Word::Not,
            _ => Word::Unknown,
        }
    }
}

/// Whether at most 16 words lack no operand and leave exactly one value.
pub(crate) fn leaves_one(words: &[Word]) -> bool
    requires { length words.now ≤ 16 }
    ensures { result ≡ is_one (values_left (λ place. false) words.now) }
{
    let mut count = 0;
    for word in words {
        let Some(next) = count_after(count, *word) else {
            return false;
        };
        count = next;
    }
    count == 1
}

/// How many values stand after a word, of at most 16 before it. None where it lacks an operand or is no word.
fn count_after(count: u32, word: Word) -> Option<u32>
    requires { count ≤ 16 }
    ensures values { (value : ℕ → Bool) (values : List Bool) → count ≡ length values
        → result ≡ option_map length (worked value values word) }
    ensures few { IfSome result (λ next. next ≤ count + 1) }
{
    match word {
        Word::Watch(_) => Some(count + 1),
        Word::And => count_after_two(count),
        Word::Or => count_after_two(count),
        Word::Xor => count_after_two(count),
        Word::Not => {
            if count == 0 {
                return None;
            }
            Some(count)
        }
        Word::Unknown => None,
    }
}

/// How many values stand after an operator with two operands. None where it lacks one.
fn count_after_two(count: u32) -> Option<u32>
    ensures values { (f : Bool → Bool → Bool) (values : List Bool) → count ≡ length values
        → result ≡ option_map length (with_two f values) }
    ensures few { IfSome result (λ next. next ≤ count + 1) }
{
    if count < 2 {
        return None;
    }
    Some(count - 1)
}
