//! The verbs by their names.

ghost use Rattle.std.specs.Prelude.{◌≡◌};
ghost use Rattle.verb_words.specs.Verbs.{verb_named};

/// What groundkit can be asked to do.
#[derive(Clone, Copy, Debug, PartialEq, Eq)]
pub enum Verb {
    Table,
    Scenario,
    Build,
    Check,
    Show,
    Run,
    Words,
    Csv,
    Pcap,
    Diff,
    Completions,
    Man,
}

impl Verb {
    /// The verb of a name; none of another word.
    #[tactic(auto, unfolding(crate::specs::Verbs::verb_named))]
    pub fn named(name: &str) -> Option<Verb>
        ensures { result ≡ verb_named name.now }
    {
        match name {
            "table" => Some(Verb::Table),
            "scenario" => Some(Verb::Scenario),
            "build" => Some(Verb::Build),
            "check" => Some(Verb::Check),
            "show" => Some(Verb::Show),
            "run" => Some(Verb::Run),
            "words" => Some(Verb::Words),
            "csv" => Some(Verb::Csv),
            "pcap" => Some(Verb::Pcap),
            "diff" => Some(Verb::Diff),
            "completions" => Some(Verb::Completions),
            "man" => Some(Verb::Man),
            _ => None,
        }
    }
}
