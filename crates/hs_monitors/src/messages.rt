//! The codes of Health and Safety's commands. Its name stands with its actions.
use commands::CodeRow;

/// No-op, reset counters, application monitoring on and off, event monitoring on and off, set the resets made to 0, set the maximum of
/// resets.
pub(crate) const CODES: [CodeRow; 8] = [
    CodeRow(0, 0, 0),
    CodeRow(1, 0, 0),
    CodeRow(2, 0, 0),
    CodeRow(3, 0, 0),
    CodeRow(4, 0, 0),
    CodeRow(5, 0, 0),
    CodeRow(8, 0, 0),
    CodeRow(9, 2, 2),
];
