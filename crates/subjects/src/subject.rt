//! What a simulated flight application does.

ghost use Rattle.std.specs.Prelude.{◌≡◌};
ghost use Rattle.subjects.specs.Plans.{Simulated, IsSimulated, reading_of, cycled, restarted};
ghost use Rattle.subjects.specs.Boxes.{held_in};

use packet_forms::Name;

/// A simulated flight application. It has a name and a plan, which is a list of execution counters that isn't empty and a place in
/// it to go back to, and it stands at a place of the plan.
pub trait Subject: Drop {
    /// The name, the plan and the place.
    ghost seen: { Self → Simulated };

    /// The name.
    fn name(&self) -> Name
        ensures name { result ≡ (seen self.now).name }
        ensures whole { IsSimulated (seen self.now) };

    /// Gives the counter at its place, and moves on to the next one, or back from the last one.
    fn cycle(&mut self) -> u32
        ensures reading { result ≡ reading_of (seen self.old) }
        ensures moved { seen self.new ≡ cycled (seen self.old) }
        ensures whole { IsSimulated (seen self.new) };

    /// Goes to the plan's first counter.
    fn restart(&mut self)
        ensures moved { seen self.new ≡ restarted (seen self.old) }
        ensures whole { IsSimulated (seen self.new) };
}

/// A subject in a box is what it is by itself.
impl Subject for Box<dyn Subject + Send> {
    ghost seen = { λ b. (Subject-box b).seen (held_in b) };

    fn name(&self) -> Name {
        (**self).name()
    }

    fn cycle(&mut self) -> u32 {
        (**self).cycle()
    }

    fn restart(&mut self) {
        (**self).restart();
    }
}
