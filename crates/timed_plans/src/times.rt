//! Times of a plan.
ghost use Rattle.std.specs.Prelude.{◌≡◌, ◌<◌, ◌^◌};
ghost use Rattle.row_forms.specs.Words.{words};
ghost use Rattle.timed_plans.specs.Times.{frame_of_word, timed_line, binding_line};

use calendar_dates::{DateFault, Epoch, read_instant, second_said};
use plan_text::{PlanReason, frame_of_time, last_word, word_fault};
use row_forms::{Reason, split_word};

/// The frame of the time that the word of this number says.
#[tactic(auto, unfolding(crate::specs::Times::frame_of_word))]
pub(crate) fn frame_of_word(epoch: &Epoch, word: usize, text: &[u8]) -> Result<u32, PlanReason>
    ensures { result ≡ frame_of_word epoch.now word text.now }
{
    match second_said(epoch, text) {
        Some(Ok(second)) => Ok(second - epoch.second),
        Some(Err(fault)) => Err(PlanReason::Date(word, fault)),
        None => frame_of_time(epoch.second, word, text),
    }
}

/// The frame of the time that is the word of this number and the line's last one.
pub(crate) fn read_time(epoch: &Epoch, word: usize, line: &[u8]) -> Result<u32, PlanReason>
    requires { word < 2 ^ 16 }
    ensures { result ≡ timed_line epoch.now word (words line.now) }
{
    match last_word(word, line) {
        Ok(text) => frame_of_word(epoch, word, text),
        Err(reason) => Err(reason),
    }
}

/// What stands behind `epoch N`: nothing, or `is` and the date of this second.
pub(crate) fn read_binding(line: &[u8]) -> Result<Option<u64>, PlanReason>
    ensures { result ≡ binding_line (words line.now) }
{
    let Some((word, rest)) = split_word(line) else {
        return Ok(None);
    };
    if word != b"is".as_slice() {
        return Err(word_fault(3, Reason::Extra));
    }
    match last_word(4, rest) {
        Ok(text) => match read_instant(text) {
            Some(Ok(instant)) => Ok(Some(instant)),
            Some(Err(fault)) => Err(PlanReason::Date(4, fault)),
            None => Err(PlanReason::Date(4, DateFault::Form)),
        },
        Err(reason) => Err(reason),
    }
}
