//! What an application says of its commands.
ghost use Rattle.std.specs.Prelude.{◌≡◌, ◌+◌, ◌≤◌, ◌<◌, ℕ, List, [], ◌∷◌, ◌++◌, length, true, None, Option};
ghost use Rattle.std.specs.List.{AllPass};
ghost use Rattle.bus_pipes.specs.Held.{adding};
ghost use Rattle.bus_pipes.specs.Counted.{is_item_counted};
ghost use Rattle.bus_pipes.specs.declared.names.Out.TheVariants as outs;
ghost use Rattle.commands.specs.Rows.{row_of, is_allowed};
ghost use Rattle.commands.specs.Verdicts.{Language, Protocol};
ghost use Rattle.commands.specs.Answering.{Answers};

use crate::verdicts::CodeRow;
use bus_pipes::{Counts, Outbox};
use packet_forms::{Name, Packet};

/// The ids of an application's commands and of the request for its housekeeping, and its codes.
#[derive(Clone, Copy)]
pub struct Terms {
    pub command_id: u16,
    pub request_id: u16,
    pub codes: &'static [CodeRow],
}

/// A reason of an application's own to refuse a command.
pub trait Reason: Copy + Drop {
    ghost number: { Self → ℕ };

    /// Its number among the application's refusals.
    fn number(self) -> u8
        ensures { result ≡ number self };
}

/// What an accepted command of an application asks for.
pub trait Command: Copy + Drop {
    ghost language: { Language Self };

    /// The application's name.
    fn name() -> Name
        ensures { result ≡ language.name };

    /// Its ids and codes.
    fn terms() -> Terms
        ensures command_id { result.command_id ≡ language.command_id }
        ensures request_id { result.request_id ≡ language.request_id }
        ensures codes { result.codes.now ≡ language.codes };

    /// What a command of this code asks for with a payload whose length its row allows.
    fn decode(code: u8, payload: &[u8]) -> Self
        requires { is_allowed (row_of language.codes code) payload.now ≡ true }
        ensures { result ≡ language.decode code payload.now };
}

/// An application's state without its counts, as far as commands see and change it. `R` is what is read beside the packets.
pub trait Commanded<R: Copy> {
    type Instruction: Command;

    type Refusal: Reason;
    /// What a wakeup leaves beside its items.
    type Left;

    // what refusals are decided by as a wakeup begins, and a wakeup
    ghost Basis: { Type 0 };

    ghost Turn: { Type 0 };

    // its commands, and how it refuses them
    ghost protocol: { Protocol Basis Self.Instruction Self.Refusal };

    ghost answers: { Answers Turn Self.Instruction };

    ghost basis: { Turn → Basis };
    // the wakeup reads this at this time
    ghost belongs: { Turn → R → ℕ → Type 0 };
    // by what was ordered in the wakeup so far
    ghost stands: { Turn → List Self.Instruction → Self → Self.Left → Type 0 };
    // what safety needs after so many packets of a wakeup, and to obey
    ghost is_safe: { R → ℕ → Self → Self.Left → Type 0 } = { λ reads n state left. Unit {0} };

    ghost can_obey: { R → Self → Self.Instruction
        → Type 0 } = { λ reads state instruction. Unit {0} };
    // how many items stand before the event of an accepted command at most
    ghost most: { ℕ };

    /// The application's own refusal of a command.
    fn refusal(&self, instruction: &Self::Instruction, reads: R, now: u32) -> Option<Self::Refusal>
        ensures refusal { (turn : Turn) (orders : List Self.Instruction) (left : Self.Left)
            → belongs turn reads now → stands turn orders self.now left
            → result ≡ protocol.refuses (basis turn) orders instruction.now }
        ensures passes { result ≡ None → can_obey reads self.now instruction.now };

    /// The housekeeping packet.
    fn housekeeping(&self, counts: Counts, reads: R, now: u32) -> Packet
        ensures packet { (turn : Turn) (orders : List Self.Instruction) (left : Self.Left)
            → belongs turn reads now → stands turn orders self.now left
            → result ≡ answers.housekeeping turn counts orders }
        ensures counted { is_item_counted (outs.Made result) ≡ true };

    /// Does what an accepted command asks for, and puts what stands before its event behind the items.
    fn obey(
        &mut self,
        instruction: &Self::Instruction,
        reads: R,
        now: u32,
        left: &mut Self::Left,
        out: &mut Outbox,
    )
        requires can { can_obey reads self.old instruction.now }
        requires safe { (n : ℕ) × (n < 16) × is_safe reads n self.old left.old }
        requires room { length out.old.items + most ≤ out.old.room }
        ensures stands { (turn : Turn) (orders : List Self.Instruction) → belongs turn reads now
            → stands turn orders self.old left.old
            → stands turn (orders ++ instruction.now ∷ []) self.new left.new }
        ensures items { (turn : Turn) (orders : List Self.Instruction) → belongs turn reads now
            → stands turn orders self.old left.old
            → out.new ≡ adding out.old (answers.replies turn orders instruction.now) }
        ensures safe { (n : ℕ) → n < 16 → is_safe reads n self.old left.old
            → is_safe reads (n + 1) self.new left.new }
        ensures counted { AllPass is_item_counted out.old.items
            → AllPass is_item_counted out.new.items }
        ensures few { length out.new.items ≤ length out.old.items + most }
        ensures room { out.new.room ≡ out.old.room };

    ghost speaks: { protocol.language ≡ Self.Instruction.language };

    ghost numbers: { protocol.number ≡ Self.Refusal.number };

    ghost still_safe: { (reads : R) (n : ℕ) (state : Self) (left : Self.Left)
        → is_safe reads n state left → is_safe reads (n + 1) state left };

    ghost timed: { (turn : Turn) (reads : R) (now : ℕ) → belongs turn reads now → answers.time turn
        ≡ now };
}
