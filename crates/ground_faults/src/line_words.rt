//! The words of a line that is looked at again.

use row_forms::split_word;

/// The word at a place of a line, the first at 0; it is empty where the line has fewer.
pub(crate) fn word_at(line: &[u8], place: usize) -> &[u8] {
    let mut rest = line;
    for _passed in 0..place {
        match split_word(rest) {
            Some((_, behind)) => rest = behind,
            None => return &[],
        }
    }
    match split_word(rest) {
        Some((word, _)) => word,
        None => &[],
    }
}

/// Whether a line begins with this word.
pub(crate) fn begins_with(line: &[u8], word: &[u8]) -> bool {
    word_at(line, 0) == word
}

/// Whether so many words, at least one, stand behind the first word of a line.
pub(crate) fn has_behind(line: &[u8], count: usize) -> bool {
    !word_at(line, count).is_empty() && word_at(line, count.saturating_add(1)).is_empty()
}

/// Whether the first word of a line is all that stands in it.
pub(crate) fn stands_alone(line: &[u8]) -> bool {
    word_at(line, 1).is_empty()
}
