//! The evaluation of actionpoints.
ghost use Rattle.std.specs.Prelude.{◌≡◌, ◌≤◌, ◌+◌, ◌*◌, ◌==◌, ◌%◌, ℕ, Bool, true, false, if◌then◌else◌, List, Some, None, IfSome};
ghost use Rattle.histories.specs.Masks.{bits_of};
ghost use Rattle.lc_watch.specs.Outcomes.{kept_at, is_known, is_tripped};
ghost use Rattle.lc_watch.specs.Expressions.{differ, worked, names_known, tripped_in};
ghost use Rattle.lc_watch.specs.Actionpoints.{AbleWhereUsed, evaluation_of};

use crate::actionpoints::ActRow;
use crate::expressions::Word;
use crate::outcomes::Outcome;
use crate::watchpoints::WATCHPOINTS;

/// Whether an actionpoint fails; none where it isn't used, or names a watchpoint whose value wasn't compared.
pub(crate) fn evaluation(row: &ActRow, outcomes: &[Outcome; WATCHPOINTS]) -> Option<bool>
    requires { AbleWhereUsed row.now }
    ensures { result ≡ evaluation_of (kept_at outcomes.now) row.now }
{
    if !row.is_used() {
        return None;
    }
    let mut stack = 0;
    for word in row.expression() {
        let Some(next) = stack_after(stack, *word, outcomes) else {
            return None;
        };
        stack = next;
    }
    Some(stack % 2 == 1)
}

/// What a word makes of the values that stand, which are the bits of a number, the last one lowest. None where it is no word, or names a
/// watchpoint whose value wasn't compared.
#[inline(always)]
fn stack_after(stack: u32, word: Word, outcomes: &[Outcome; WATCHPOINTS]) -> Option<u32>
    requires { stack ≤ 65535 }
    ensures unknown { result ≡ None → names_known (kept_at outcomes.now) word ≡ false }
    ensures known { (next : ℕ) → result ≡ Some next
        → names_known (kept_at outcomes.now) word ≡ true }
    ensures left { (values left : List Bool) (next : ℕ) → stack ≡ bits_of values
        → worked (tripped_in (kept_at outcomes.now)) values word ≡ Some left → result ≡ Some next
        → next ≡ bits_of left }
    ensures small { IfSome result (λ next. next ≤ 2 * stack + 1) }
{
    match word {
        Word::Watch(place) => put_outcome(stack, outcome_in(outcomes, place)),
        Word::And => Some(put(stack / 4, is_last(stack / 2) & is_last(stack))),
        Word::Or => Some(put(stack / 4, is_last(stack / 2) | is_last(stack))),
        Word::Xor => Some(put(stack / 4, differ(is_last(stack / 2), is_last(stack)))),
        Word::Not => Some(put(stack / 2, !is_last(stack))),
        Word::Unknown => None,
    }
}

/// The values with that of a watchpoint; none where it wasn't compared.
#[inline(always)]
fn put_outcome(stack: u32, outcome: Outcome) -> Option<u32>
    requires { stack ≤ 65535 }
    ensures unknown { result ≡ None → is_known outcome ≡ false }
    ensures known { (next : ℕ) → result ≡ Some next → is_known outcome ≡ true }
    ensures left { (next : ℕ) → result ≡ Some next
        → next ≡ (if is_tripped outcome then 1 else 0) + 2 * stack }
    ensures small { IfSome result (λ next. next ≤ 2 * stack + 1) }
{
    match outcome {
        Outcome::Unseen => None,
        Outcome::Clear => Some(put(stack, false)),
        Outcome::Tripped => Some(put(stack, true)),
        Outcome::Outside => None,
    }
}

/// The values with one more.
#[inline(always)]
fn put(stack: u32, value: bool) -> u32
    requires { stack ≤ 65535 }
    ensures { result ≡ (if value then 1 else 0) + 2 * stack }
{
    if value { 1 + 2 * stack } else { 2 * stack }
}

/// The last of the values that stand.
#[inline(always)]
fn is_last(stack: u32) -> bool
    ensures { result ≡ (stack % 2 == 1) }
{
    stack % 2 == 1
}

/// Whether just one of two holds.
#[inline(always)]
fn differ(a: bool, b: bool) -> bool
    ensures { result ≡ differ a b }
{
    if a { !b } else { b }
}

/// The outcome of the watchpoint in a place, from 0.
#[inline(always)]
fn outcome_in(outcomes: &[Outcome; WATCHPOINTS], place: u8) -> Outcome
    ensures { result ≡ kept_at outcomes.now place }
{
    if place as usize >= WATCHPOINTS {
        return Outcome::Unseen;
    }
    outcomes[place as usize]
}
