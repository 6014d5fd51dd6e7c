//! What the bench asks of an application.

ghost use Rattle.std.specs.Prelude.{◌≡◌, ◌≤◌, ℕ, true, List, [], ◌∷◌, ◌++◌, length};
ghost use Rattle.bus_pipes.specs.declared.names.Out.{Out};
ghost use Rattle.app_suite.specs.Wakes.{AreSendable};

use crate::reads::Reads;
use bus_pipes::Outbox;
use packet_forms::Packet;

/// An application's state, as the bench wakes it. `X` is what a wakeup leaves beside items.
pub trait Application<X> {
    ghost use Rattle.app_suite.specs.declared.reads.Reads.{Reads};

    // what a history of the application begins with
    ghost Setup: { Type 0 };
    // what a wakeup reads, as the application's definitions have it
    ghost Input: { Type 0 };

    ghost stands: { Setup → List Input → Self → Type 0 };

    ghost items: { Setup → List Input → Input → List Out };
    // how many items a wakeup gives at most
    ghost most: { ℕ };
    // the tables that a wakeup reads are those with which a history of this setup goes on
    ghost belongs: { Setup → Reads → Type 0 };

    ghost input: { Reads → List (List ℕ) → Input };

    ghost can_step: { Reads → Self → Type 0 };

    ghost is_clear: { X → Type 0 };
    // what is left beside the items of a wakeup
    ghost fills: { Reads → List (List ℕ) → X → Type 0 };

    /// Whether a wakeup on these packets would leave the state as it is and give nothing.
    fn is_idle(&self, reads: &Reads<'_, '_, '_>, commands: &[Packet]) -> bool
        ensures stands { (setup : Setup) (history : List Input) → result ≡ true
            → belongs setup reads.now → stands setup history self.now
            → stands setup (history ++ input reads.now commands.now ∷ []) self.now }
        ensures items { (setup : Setup) (history : List Input) → result ≡ true
            → belongs setup reads.now → stands setup history self.now
            → items setup history (input reads.now commands.now) ≡ [] }
        ensures fills { (beside : X) → result ≡ true → is_clear beside
            → fills reads.now commands.now beside };

    /// Wakes the application on the packets of its pipe, at most 16. What it sends goes to `out`, which is empty.
    fn advance(
        &mut self,
        reads: &Reads<'_, '_, '_>,
        commands: &[Packet],
        out: &mut Outbox,
        beside: &mut X,
    )
        requires few { length commands.now ≤ 16 }
        requires empty { out.old.items ≡ [] }
        requires room { most ≤ out.old.room }
        requires can { can_step reads.now self.old }
        requires clear { is_clear beside.old }
        ensures stands { (setup : Setup) (history : List Input) → belongs setup reads.now
            → stands setup history self.old → stands setup (history ++ input reads.now commands.now
            ∷ []) self.new }
        ensures items { (setup : Setup) (history : List Input) → belongs setup reads.now
            → stands setup history self.old → out.new.items
            ≡ items setup history (input reads.now commands.now) }
        ensures can { can_step reads.now self.new }
        ensures sendable { AreSendable most out.new.items }
        ensures room { out.new.room ≡ out.old.room }
        ensures fills { fills reads.now commands.now beside.new };
}
