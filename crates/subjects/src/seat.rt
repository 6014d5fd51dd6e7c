//! A subject's seat in a crowd.

ghost use Rattle.std.specs.Prelude.{◌≡◌};
ghost use Rattle.subjects.specs.Plans.{cycled};
ghost use Rattle.subjects.specs.Crowds.{counter_of, is_named, restarted_if};

use crate::subject::Subject;
use packet_forms::{Counter, Name};

/// A subject, and the counter that it gave last where workers cycle it.
#[derive(Drop)]
pub(crate) struct Seat<S> {
    pub(crate) subject: S,
    pub(crate) counter: Counter,
}

impl<S: Subject> Seat<S> {
    /// Cycles the subject, and keeps its counter under its name.
    pub(crate) fn cycle(&mut self)
        ensures subject { S.seen self.new.subject ≡ cycled (S.seen self.old.subject) }
        ensures counter { self.new.counter ≡ counter_of (S.seen self.old.subject) }
    {
        let value = self.subject.cycle();
        let name = self.subject.name();
        self.counter = Counter { name, value };
    }

    /// Whether the subject has this name.
    #[tactic(auto, unfolding(crate::specs::Crowds::is_named))]
    pub(crate) fn is_named(&self, name: &Name) -> bool
        ensures { result ≡ is_named name.now (S.seen self.now.subject) }
    {
        *self.subject.name().bytes() == *name.bytes()
    }

    /// Restarts the subject where it has this name.
    #[tactic(auto, unfolding(crate::specs::Crowds::restarted_if))]
    pub(crate) fn restart_if(&mut self, name: &Name)
        ensures { S.seen self.new.subject ≡ restarted_if name.now (S.seen self.old.subject) }
    {
        if self.is_named(name) {
            self.subject.restart();
        }
    }
}
