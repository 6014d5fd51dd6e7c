//! The first word of a line.
ghost use Rattle.std.specs.Prelude.{◌≡◌, ◌<◌, length};
ghost use Rattle.timed_plans.specs.Kinds.{kind_of};

/// What a line begins with.
#[derive(Clone, Copy, Debug, PartialEq, Eq)]
pub(crate) enum LineKind {
    Epoch,
    Region,
    Start,
    Send,
    /// `app`, `upset` or `activate`.
    Item,
    Hold,
    Counter,
    Frame,
    At,
    From,
    Every,
    Tick,
    End,
}

/// What a word of more than five letters begins.
#[tactic(auto, unfolding(crate::specs::Kinds::kind_of))]
fn long_kind(word: &[u8]) -> Option<LineKind>
    requires { 5 < length word.now }
    ensures { result ≡ kind_of word.now }
{
    if word == b"region".as_slice() {
        return Some(LineKind::Region);
    }
    if word == b"activate".as_slice() {
        return Some(LineKind::Item);
    }
    if word == b"counter".as_slice() {
        return Some(LineKind::Counter);
    }
    None
}

/// What a word begins.
#[tactic(auto, unfolding(crate::specs::Kinds::kind_of))]
pub(crate) fn kind_of(word: &[u8]) -> Option<LineKind>
    ensures { result ≡ kind_of word.now }
{
    if word.len() > 5 {
        return long_kind(word);
    }
    match word {
        b"epoch" => Some(LineKind::Epoch),
        b"start" => Some(LineKind::Start),
        b"send" => Some(LineKind::Send),
        b"app" => Some(LineKind::Item),
        b"upset" => Some(LineKind::Item),
        b"hold" => Some(LineKind::Hold),
        b"frame" => Some(LineKind::Frame),
        b"at" => Some(LineKind::At),
        b"from" => Some(LineKind::From),
        b"every" => Some(LineKind::Every),
        b"tick" => Some(LineKind::Tick),
        b"end" => Some(LineKind::End),
        _ => None,
    }
}
