//! Verdicts, and the rows of codes that they are found by.
ghost use Rattle.std.specs.Prelude.{◌≡◌, ◌&&◌};
ghost use Rattle.commands.specs.Rows.{row_of, is_length_allowed};

/// A function code of an application, and the shortest and the longest payload in bytes that a command of it may have.
#[derive(Clone, Copy, Debug, PartialEq, Eq)]
pub struct CodeRow(pub u8, pub u8, pub u8);

/// What an application makes of a packet of its command pipe.
#[derive(Clone, Copy, Debug, PartialEq, Eq)]
pub enum Verdict<I> {
    /// A packet with another id.
    Other,
    /// The request for housekeeping.
    Request,
    /// A command that is refused, and the number of the refusal.
    Refused(u8),
    /// A command that is accepted: its function code, and what it asks for.
    Accepted(u8, I),
}

/// The first row of a code.
pub(crate) fn row_of(rows: &[CodeRow], code: u8) -> Option<CodeRow>
    ensures { result ≡ row_of rows.now code }
{
    for row in rows {
        if row.0 == code {
            return Some(*row);
        }
    }
    None
}

/// Whether a payload is as long as a row says.
pub(crate) fn is_length_allowed(row: CodeRow, payload: &[u8]) -> bool
    ensures { result ≡ is_length_allowed row payload.now }
{
    row.1 as usize <= payload.len() && payload.len() <= row.2 as usize
}
