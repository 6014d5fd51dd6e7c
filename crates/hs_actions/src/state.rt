//! The state of the actions.
ghost use Rattle.std.specs.Prelude.{◌≡◌, ◌+◌, ◌-◌, ◌<◌, ◌≤◌, ℕ, List, [], ◌∷◌, length, get_or};
ghost use Rattle.std.specs.List.{AllPass};
ghost use Rattle.bus_pipes.specs.Held.{adding};
ghost use Rattle.bus_pipes.specs.Counted.{is_item_counted};
ghost use Rattle.hs_tables.specs.declared.actions.ActRow.{ActRow};
ghost use Rattle.hs_actions.specs.Happenings.{Attempt, action_of, HasPlace};
ghost use Rattle.hs_actions.specs.Happenings.Happening.{Limits, Clears, Attempts};
ghost use Rattle.hs_actions.specs.Outcomes.{Past, past_from, in_next_wakeup, with_more, goes_after};
ghost use Rattle.hs_actions.specs.Answers.{happening_items};
ghost use Rattle.hs_actions.specs.State.{ActionsStand, is_cooling, resets_made, resets_most, actions_sent};
ghost use Rattle.hs_actions.specs.declared.action.Action.TheVariants.{Reset, Message};

use crate::action::{Action, Source, action_of};
use crate::answers::put_items;
use bus_pipes::Outbox;
use hs_tables::MsgActs;
use packet_forms::Name;

/// What is left of the cooldown of each message action, the resets made and their maximum, and the message actions sent, modulo 65,536.
#[derive(Clone, Copy, Debug, PartialEq, Eq)]
pub struct Actions {
    cooldowns: [u16; 8],
    made: u16,
    max: u16,
    sent: u16,
}

impl Actions {
    /// The state before the first wakeup: no cooldown runs, nothing was sent, and so many resets were made of at most `max`.
    pub fn start(made: u16, max: u16) -> Actions
        ensures { (acts : List ActRow) → ActionsStand acts (past_from made max) result }
    {
        Actions {
            cooldowns: [0; 8],
            made,
            max,
            sent: 0,
        }
    }

    /// Begins a wakeup: each cooldown that isn't 0 goes down by one.
    pub fn tick(&mut self)
        ensures { (acts : List ActRow) (past : Past) → ActionsStand acts past self.old
            → ActionsStand acts (in_next_wakeup past) self.new }
    {
        cool(&mut self.cooldowns);
    }

    /// Sets the maximum of resets.
    pub fn set_max(&mut self, n: u16)
        ensures { (acts : List ActRow) (past : Past) → ActionsStand acts past self.old
            → ActionsStand acts (with_more past (Limits n ∷ [])) self.new }
    {
        self.max = n;
    }

    /// Sets the resets made to 0.
    pub fn clear_resets(&mut self)
        ensures { (acts : List ActRow) (past : Past) → ActionsStand acts past self.old
            → ActionsStand acts (with_more past (Clears ∷ [])) self.new }
    {
        self.made = 0;
    }

    /// The resets made, and their maximum.
    pub fn resets(&self) -> (u16, u16)
        ensures made { result.0 ≡ resets_made self.now }
        ensures max { result.1 ≡ resets_most self.now }
    {
        (self.made, self.max)
    }

    /// The message actions sent, modulo 65,536.
    pub fn sent(&self) -> u16
        ensures { result ≡ actions_sent self.now }
    {
        self.sent
    }

    /// Whether any cooldown runs.
    #[inline(always)]
    pub fn is_cooling(&self) -> bool
        ensures { (acts : List ActRow) (past : Past) → ActionsStand acts past self.now
            → result ≡ is_cooling acts past }
    {
        let mut any = false;
        for place in 0..8 {
            any = any | (self.cooldowns[place] > 0);
        }
        any
    }

    /// Performs the action of an entry of a monitor, 1 to 11, and puts what it gives into `out`, which has room for two items: 1 a
    /// processor reset where fewer were made than the maximum (events 101, 111, else 105, 115), 2 a restart (102, 112), 3 an event (103,
    /// 113) and of an event monitor a deletion, 4 to 11 a message action: where its entry is used and no cooldown of it runs, it sends
    /// its packet and then, unless its state is 2, an event (104, 114), and its cooldown begins.
    pub fn perform(
        &mut self,
        from: Source,
        name: Name,
        number: u16,
        acts: &MsgActs,
        now: u32,
        out: &mut Outbox,
    )
        requires action { (1 ≤ number) × (number ≤ 11) }
        requires room { length out.old.items + 2 ≤ out.old.room }
        ensures stands { (past : Past) (a : Attempt) → a.source ≡ from → a.name ≡ name
            → a.action ≡ action_of number → a.wakeup + 1 ≡ past.wakeups
            → ActionsStand acts.now past self.old
            → ActionsStand acts.now (with_more past (Attempts a ∷ [])) self.new }
        ensures items { (past : Past) (a : Attempt) → a.source ≡ from → a.name ≡ name
            → a.action ≡ action_of number → a.wakeup + 1 ≡ past.wakeups
            → ActionsStand acts.now past self.old
            → out.new ≡ adding out.old (happening_items now acts.now past (Attempts a)) }
        ensures counted { AllPass is_item_counted out.old.items
            → AllPass is_item_counted out.new.items }
        ensures few { length out.new.items ≤ length out.old.items + 2 }
        ensures room { out.new.room ≡ out.old.room }
    {
        let action = action_of(number);
        let went = self.attempt(action, acts);
        put_items(from, name, action, acts, went, now, out);
    }

    /// Whether an attempt goes, and the state after it.
    fn attempt(&mut self, action: Action, acts: &MsgActs) -> bool
        requires { HasPlace action }
        ensures stands { (past : Past) (a : Attempt) → a.action ≡ action
            → a.wakeup + 1 ≡ past.wakeups
            → ActionsStand acts.now past self.old
            → ActionsStand acts.now (with_more past (Attempts a ∷ [])) self.new }
        ensures went { (past : Past) (a : Attempt) → a.action ≡ action → a.wakeup + 1 ≡ past.wakeups
            → ActionsStand acts.now past self.old → result ≡ goes_after acts.now past (Attempts a) }
    {
        match action {
            Action::Reset => self.reset(),
            Action::Restart => true,
            Action::Report => true,
            Action::Message(place) => self.send(place, acts),
        }
    }

    /// A reset goes where fewer were made than the maximum.
    fn reset(&mut self) -> bool
        ensures stands { (acts : List ActRow) (past : Past) (a : Attempt) → a.action ≡ Reset
            → ActionsStand acts past self.old
            → ActionsStand acts (with_more past (Attempts a ∷ [])) self.new }
        ensures went { (acts : List ActRow) (past : Past) (a : Attempt) → a.action ≡ Reset
            → ActionsStand acts past self.old → result ≡ goes_after acts past (Attempts a) }
    {
        if self.made >= self.max {
            return false;
        }
        self.made += 1;
        true
    }

    /// A message action goes where its entry is used and no cooldown of it runs.
    fn send(&mut self, place: u16, acts: &MsgActs) -> bool
        requires { place < 8 }
        ensures stands { (past : Past) (a : Attempt) → a.action ≡ Message place
            → a.wakeup + 1 ≡ past.wakeups
            → ActionsStand acts.now past self.old
            → ActionsStand acts.now (with_more past (Attempts a ∷ [])) self.new }
        ensures went { (past : Past) (a : Attempt) → a.action ≡ Message place
            → a.wakeup + 1 ≡ past.wakeups
            → ActionsStand acts.now past self.old → result ≡ goes_after acts.now past (Attempts a) }
    {
        let Some(entry) = acts.entry(u32::from(place) + 1) else {
            return false;
        };
        if self.cooldowns[place as usize] != 0 {
            return false;
        }
        self.cooldowns[place as usize] = entry.cooldown;
        self.sent = self.sent.wrapping_add(1);
        true
    }
}

/// One wakeup less is left of each cooldown that isn't over.
fn cool(cooldowns: &mut [u16; 8])
    ensures { (place : ℕ) → place < 8 → get_or cooldowns.new place 0
        ≡ get_or cooldowns.old place 0 - 1 }
{
    for place in 0..8 {
        cooldowns[place] = cooldowns[place].saturating_sub(1);
    }
}
