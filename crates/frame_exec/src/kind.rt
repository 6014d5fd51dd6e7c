//! What kind a frame is.

ghost use Rattle.std.specs.Prelude.{◌≤◌};
ghost use Rattle.scenario.specs.FrameLists.{items_in};
ghost use Rattle.frame_exec.specs.Kinds.{IsOfKind};

use scenario::FrameInput;

/// What kind a frame is, by what is to be done in it before the applications take their packets. Most frames only send, and are asked for
/// nothing else.
#[derive(Clone, Copy, Debug, PartialEq, Eq)]
pub(crate) enum FrameKind {
    /// Packets are sent, if anything is.
    OnlySends,
    /// Bytes are upset or counters are told, and nobody is held.
    Plain,
    /// Applications are held.
    Holds,
    /// Files are named whose tables become active, and applications may be held.
    NamesTables,
}

impl FrameKind {
    /// The kind of this frame.
    #[inline(always)]
    pub(crate) fn of(input: &FrameInput) -> FrameKind
        ensures kind { IsOfKind result input.now }
        ensures limit { items_in input.now ≤ 64 }
    {
        if input.has_only_sends() {
            return FrameKind::OnlySends;
        }
        if input.is_plain() {
            return FrameKind::Plain;
        }
        if input.activations().is_empty() {
            return FrameKind::Holds;
        }
        FrameKind::NamesTables
    }
}
