//! The first word of a line.
ghost use Rattle.std.specs.Prelude.{◌≡◌, ◌<◌, length};
ghost use Rattle.plan_text.specs.Verbs.{verb_of};

/// What a line begins with.
#[derive(Clone, Copy, Debug, PartialEq, Eq)]
pub(crate) enum Verb {
    Epoch,
    Region,
    Start,
    Send,
    /// `app`, `upset`, `hold` or `activate`.
    Item,
    Frame,
    At,
    Tick,
    End,
}

/// What a word of more than five letters begins.
#[tactic(auto, unfolding(crate::specs::Verbs::verb_of))]
fn long_verb(word: &[u8]) -> Option<Verb>
    requires { 5 < length word.now }
    ensures { result ≡ verb_of word.now }
{
    if word == b"region".as_slice() {
        return Some(Verb::Region);
    }
    if word == b"activate".as_slice() {
        return Some(Verb::Item);
    }
    None
}

/// What a word begins.
#[tactic(auto, unfolding(crate::specs::Verbs::verb_of))]
pub(crate) fn verb_of(word: &[u8]) -> Option<Verb>
    ensures { result ≡ verb_of word.now }
{
    if word.len() > 5 {
        return long_verb(word);
    }
    match word {
        b"epoch" => Some(Verb::Epoch),
        b"start" => Some(Verb::Start),
        b"send" => Some(Verb::Send),
        b"app" => Some(Verb::Item),
        b"upset" => Some(Verb::Item),
        b"hold" => Some(Verb::Item),
        b"frame" => Some(Verb::Frame),
        b"at" => Some(Verb::At),
        b"tick" => Some(Verb::Tick),
        b"end" => Some(Verb::End),
        _ => None,
    }
}
