//! Who tells what the frames of a log were given.

ghost use Rattle.std.specs.Prelude.{OnOk};
ghost use Rattle.ground_tools.specs.Appended.{Appends};

use std::alloc::AllocError;

/// Who tells, in front of the lines of a log, what its frames were given.
pub trait FrameTeller {
    /// Appends what is told of the frames up to this one and wasn't told yet, a line each.
    fn tell_frames(&mut self, last: u32, out: &mut Vec<u8>) -> Result<(), AllocError>
        ensures { OnOk result (Appends out.old.items out.new.items) };
}

/// Nobody tells of them where there is none.
impl<F: FrameTeller> FrameTeller for Option<F> {
    fn tell_frames(&mut self, last: u32, out: &mut Vec<u8>) -> Result<(), AllocError> {
        match self {
            Some(frames) => frames.tell_frames(last, out),
            None => Ok(()),
        }
    }
}
