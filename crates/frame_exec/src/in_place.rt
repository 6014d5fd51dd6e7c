//! An application that is woken where it is, on the caller's thread.

ghost use Rattle.std.specs.Prelude.{◌≡◌, ◌≤◌, true, false, []};
ghost use Rattle.app_suite.specs.Wakes.{IsWoken, AreSendable};
ghost use Rattle.app_suite.specs.declared.slot.TheConstants.{LIST_ROOM};

use app_suite::{Application, Reads, Slot};

/// Wakes an application in its slot on the packets that it took, unless it `rests`, and tells whether no item was given. It gave nothing yet.
#[inline(always)]
pub(crate) fn wake_in_place<S: Application<X>, X>(
    slot: &mut Slot<S>,
    rests: bool,
    reads: &Reads<'_, '_, '_>,
    beside: &mut X,
) -> bool
    requires woken { (setup : S.Setup) → rests ≡ true → S.belongs setup reads.now
        → IsWoken (S.stands setup) (S.items setup) slot.old.held
        (S.input reads.now slot.old.commands.value) slot.old.state.value slot.old.state.value [] }
    requires fills { (other : X) → rests ≡ true → slot.old.held ≡ false → S.is_clear other
        → S.fills reads.now slot.old.commands.value other }
    requires here { rests ≡ false → slot.old.held ≡ false }
    requires room { S.most ≤ LIST_ROOM }
    requires empty { slot.old.out.items ≡ [] }
    requires can { S.can_step reads.now slot.old.state.value }
    requires clear { S.is_clear beside.old }
    ensures woken { (setup : S.Setup) → S.belongs setup reads.now
        → IsWoken (S.stands setup) (S.items setup) slot.old.held
        (S.input reads.now slot.old.commands.value) slot.old.state.value slot.new.state.value
        slot.new.out.items }
    ensures can { S.can_step reads.now slot.new.state.value }
    ensures sendable { AreSendable S.most slot.new.out.items }
    ensures held { slot.old.held ≡ true → S.is_clear beside.new }
    ensures fills { slot.old.held ≡ false
        → S.fills reads.now slot.old.commands.value beside.new }
    ensures none { result ≡ true → slot.new.out.items ≡ [] }
    ensures same { slot.new.held ≡ slot.old.held }
    ensures nothing { slot.old.held ≡ true → slot.new.out.items ≡ [] }
{
    if rests {
        return true;
    }
    slot.state
        .advance(reads, slot.commands.packets(), &mut slot.out, beside);
    slot.out.is_empty()
}
