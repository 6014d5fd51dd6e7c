//! A log as sentences.

ghost use Rattle.std.specs.Prelude.{◌≡◌, ◌++◌, ℕ, List, Option, OnOk};
ghost use Rattle.log_lines.specs.declared.line.LogLine.{LogLine};
ghost use Rattle.log_words.specs.Sentences.{IsGood, sentence_of};
ghost use Rattle.log_words.specs.Worked.{own_words};

use crate::line_maker::LineMaker;
use log_lines::LogLine;
use log_words::{Vocabulary, show_line};
use std::alloc::AllocError;

/// Makes of each line its sentence, in the names of the bench's applications.
#[derive(Drop)]
pub struct Sentences {
    vocabulary: Vocabulary,
    epoch: Option<u32>,
    ghost good: { IsGood vocabulary },
    ghost own: { (e : Option ℕ) (line : LogLine)
        → sentence_of vocabulary e line ≡ sentence_of own_words e line },
}

impl Sentences {
    /// Lines are told by the seconds behind `epoch`, the time of frame 0, where it is known, and else by their frames.
    pub fn new(epoch: Option<u32>) -> Sentences
        ensures { result.epoch ≡ epoch }
    {
        Sentences {
            vocabulary: Vocabulary::of_applications(),
            epoch,
        }
    }
}

impl LineMaker for Sentences {
    ghost use Rattle.ground_logs.specs.Told.{IsSentence};

    ghost makes = { λ sentences line made. IsSentence sentences.epoch line made };

    fn make(&self, line: &LogLine, out: &mut Vec<u8>) -> Result<(), AllocError>
        ensures { OnOk result ((made : List ℕ) × (out.new.items ≡ out.old.items ++ made)
            × IsSentence self.now.epoch line.now made) }
    {
        show_line(&self.vocabulary, self.epoch, line, out)?;
        out.push(b'\n')?;
        Ok(())
    }
}
