//! What a reader answers.

/// What a reader answers.
#[derive(Clone, Copy, Debug, PartialEq, Eq)]
pub enum Item {
    /// The header is whole.
    Header,
    /// A frame is whole.
    Frame,
    /// The text ended well.
    End,
    /// No whole item is left of the bytes fed so far.
    More,
    /// The text is bad or unended: its line, counted from 1, or the number of its lines, and the reason's
    /// number, 1 to 7.
    Bad {
        /// The first bad line, counted from 1; where the text is unended, the number of its lines.
        line: u32,
        /// The reason's number, from 1 to 7.
        reason: u8,
    },
}
