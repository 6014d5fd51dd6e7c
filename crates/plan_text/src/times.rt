//! Times of a plan.
ghost use Rattle.std.specs.Prelude.{◌≡◌, ◌≤◌, ◌<◌, ◌^◌, IfSome, Some};
ghost use Rattle.row_forms.specs.Words.{words, digits};
ghost use Rattle.row_forms.specs.Numbers.{span_of, span_said, behind_epoch, time_said};
ghost use Rattle.plan_text.specs.Plans.{frame_of_time, time_line};

use crate::fault::PlanReason;
use crate::line::last_word;
use packet_forms::{behind, front};
use row_forms::{Reason, RowFault, number};
use scenario::digits;

/// The number that at most 5 decimal digits write.
#[tactic(auto, unfolding(row_forms::specs::Words::digits, scenario::specs::Words::digits))]
fn short_digits(room: usize, word: &[u8]) -> Option<u64>
    requires { room ≤ 5 }
    ensures value { result ≡ digits 10 room word.now }
    ensures bound { IfSome result (λ n. n < 100000) }
{
    digits(10, room, word)
}

/// The seconds of so many hours, minutes under 60 and seconds under 60.
fn span_of(hours: Option<u64>, minutes: Option<u64>, seconds: Option<u64>) -> Option<u64>
    requires { IfSome hours (λ n. n < 100000) }
    ensures value { result ≡ span_of hours minutes seconds }
    ensures bound { IfSome result (λ n. n < 2 ^ 30) }
{
    match (hours, minutes, seconds) {
        (Some(hours), Some(minutes), Some(seconds)) if minutes < 60 && seconds < 60 => {
            Some(3600 * hours + 60 * minutes + seconds)
        }
        _ => None,
    }
}

/// The seconds that `H:MM:SS` says, with 1 to 5 digits of hours.
#[tactic(auto, unfolding(row_forms::specs::Numbers::span_said))]
fn span(text: &[u8]) -> Option<u64>
    ensures value { result ≡ span_said text.now }
    ensures bound { IfSome result (λ n. n < 2 ^ 30) }
{
    let end = text.len();
    if end < 7 || text[end - 6] != b':' || text[end - 3] != b':' {
        return None;
    }
    let hours = short_digits(5, front(text, end - 6));
    let minutes = short_digits(2, front(behind(text, end - 5), 2));
    let seconds = short_digits(2, behind(text, end - 2));
    span_of(hours, minutes, seconds)
}

/// A time so many seconds behind the epoch.
fn behind_epoch(epoch: u32, span: Option<u64>) -> Option<u32>
    requires { IfSome span (λ n. n < 2 ^ 30) }
    ensures { result ≡ behind_epoch 4294967295 (Some epoch) span }
{
    let second = u64::from(epoch) + span?;
    if second <= 4_294_967_295 {
        return Some(second as u32);
    }
    None
}

/// A time: a number of seconds, or `+H:MM:SS` behind the epoch.
#[tactic(auto, unfolding(row_forms::specs::Numbers::time_said))]
fn second_of(epoch: u32, text: &[u8]) -> Option<u32>
    ensures { result ≡ time_said (Some epoch) 4294967295 text.now }
{
    if !text.is_empty() && text[0] == b'+' {
        return behind_epoch(epoch, span(behind(text, 1)));
    }
    number(4_294_967_295, text)
}

/// The frame of the time that the word of this number says.
#[tactic(auto, unfolding(crate::specs::Plans::frame_of_time))]
pub fn frame_of_time(epoch: u32, word: usize, text: &[u8]) -> Result<u32, PlanReason>
    ensures { result ≡ frame_of_time epoch word text.now }
{
    let Some(second) = second_of(epoch, text) else {
        return Err(PlanReason::Row(RowFault {
            word,
            reason: Reason::Time,
        }));
    };
    if second < epoch {
        return Err(PlanReason::Early);
    }
    Ok(second - epoch)
}

/// The frame of the time that is the word of this number and the line's last one.
pub fn read_time(epoch: u32, word: usize, line: &[u8]) -> Result<u32, PlanReason>
    requires { word < 2 ^ 16 }
    ensures { result ≡ time_line epoch word (words line.now) }
{
    match last_word(word, line) {
        Ok(text) => frame_of_time(epoch, word, text),
        Err(reason) => Err(reason),
    }
}
