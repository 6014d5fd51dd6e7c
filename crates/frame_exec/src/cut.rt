//! What a failed sink leaves of the lines that waited.

/// The sink failed, and so many of the frames that were added before have lines that it didn't take whole.
#[derive(Clone, Copy, Debug, PartialEq, Eq)]
pub struct Cut {
    pub late: u32,
}
