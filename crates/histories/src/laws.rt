//! The laws of the words at one more element. The functions do nothing: their contracts are the laws.

ghost use Rattle.std.specs.Prelude.{◌≡◌, ◌<◌, Bool, true, false, List, [], ◌∷◌, ◌++◌, length, Option, if◌then◌else◌};
ghost use Rattle.std.specs.List.{after_last};
ghost use Rattle.histories.specs.Words.{along, joined_along, decided, from_last, last_or, last_place};
ghost use Rattle.histories.specs.Entries.{Entry, wakeups, activations, in_force, wakeups_before, replaced_by};
ghost use Rattle.histories.specs.Entries.Entry.{Woken, Activated};
ghost use Rattle.histories.specs.Masks.{bits_of};

/// What a function gives along a list, at one more element.
#[tactic(auto, using(crate::proofs::Along::along_more))]
pub fn along_law<A, B>()
    ensures { (f : List A → A → B) (xs : List A) (x : A)
        → along f (xs ++ x ∷ []) ≡ along f xs ++ f xs x ∷ [] }
{}

/// What a function that gives a list at each element gives along a list, one behind another: at one more element, and along one list
/// behind another.
#[tactic(auto, using(crate::proofs::Along::joined_more, crate::proofs::Along::joined_both))]
pub fn joined_law<A, B>()
    ensures more { (f : List A → A → List B) (xs : List A) (x : A)
        → joined_along f (xs ++ x ∷ []) ≡ joined_along f xs ++ f xs x }
    ensures both { (f : List A → A → List B) (xs ys : List A)
        → joined_along f (xs ++ ys) ≡ joined_along f xs
        ++ joined_along (λ earlier y. f (xs ++ earlier) y) ys }
{}

/// Decisions that depend on earlier ones, at one more element.
#[tactic(auto, using(crate::proofs::Along::decided_more))]
pub fn decided_law<A, B>()
    ensures { (f : List (A × B) → A → B) (xs : List A) (x : A)
        → decided f (xs ++ x ∷ []) ≡ decided f xs ++ (x, f (decided f xs) x) ∷ [] }
{}

/// The elements from the last that passes a test on and those after it, the last element, and the place of the last that passes, at
/// one more element.
#[tactic(auto, using(crate::proofs::Lasts::from_last_more, crate::proofs::Lasts::after_last_more, crate::proofs::Lasts::last_or_more, crate::proofs::Lasts::last_place_more))]
pub fn last_law<A>()
    ensures from { (p : A → Bool) (xs : List A) (x : A)
        → from_last p (xs ++ x ∷ []) ≡ (if p x then x ∷ [] else (from_last p xs ++ x ∷ [])) }
    ensures after { (p : A → Bool) (xs : List A) (x : A)
        → after_last p (xs ++ x ∷ []) ≡ (if p x then [] else (after_last p xs ++ x ∷ [])) }
    ensures element { (d : A) (xs : List A) (x : A) → last_or d (xs ++ x ∷ []) ≡ x }
    ensures place { (p : A → Bool) (xs : List A) (x : A)
        → last_place p (xs ++ x ∷ []) ≡ (if p x then length xs else last_place p xs) }
{}

/// A history of wakeups and activations at one more wakeup.
#[tactic(auto, using(crate::proofs::Entries::wakeups_woken, crate::proofs::Entries::activations_woken, crate::proofs::Entries::in_force_woken, crate::proofs::Entries::wakeups_before_more))]
pub fn woken_law<W, A, X>()
    ensures wakeups { (entries : List (Entry W A)) (w : W)
        → wakeups (entries ++ Woken w ∷ []) ≡ wakeups entries ++ w ∷ [] }
    ensures activations { (entries : List (Entry W A)) (w : W)
        → activations (entries ++ Woken w ∷ []) ≡ activations entries }
    ensures in_force { (of_kind : A → Option X) (before : X) (entries : List (Entry W A)) (w : W)
        → in_force of_kind before (entries ++ Woken w ∷ []) ≡ in_force of_kind before entries }
    ensures before { (test : Entry W A → Bool) (entries : List (Entry W A)) (w : W)
        → wakeups_before test (entries ++ Woken w ∷ [])
        ≡ (if test (Woken w) then length (wakeups entries) else wakeups_before test entries) }
{}

/// What a history has in wakeups and activations, at one more activation.
#[tactic(auto, using(crate::proofs::Entries::wakeups_activated, crate::proofs::Entries::activations_activated, crate::proofs::Entries::in_force_activated, crate::proofs::Entries::wakeups_before_more))]
pub fn activated_law<W, A, X>()
    ensures wakeups { (entries : List (Entry W A)) (a : A)
        → wakeups (entries ++ Activated a ∷ []) ≡ wakeups entries }
    ensures activations { (entries : List (Entry W A)) (a : A)
        → activations (entries ++ Activated a ∷ []) ≡ activations entries ++ a ∷ [] }
    ensures in_force { (of_kind : A → Option X) (before : X) (entries : List (Entry W A)) (a : A)
        → in_force of_kind before (entries ++ Activated a ∷ [])
        ≡ replaced_by (of_kind a) (in_force of_kind before entries) }
    ensures before { (test : Entry W A → Bool) (entries : List (Entry W A)) (a : A)
        → wakeups_before test (entries ++ Activated a ∷ [])
        ≡ (if test (Activated a) then length (wakeups entries) else wakeups_before test entries) }
{}

/// Each bit of a mask by itself, and all four of one.
#[tactic(auto, unfolding(crate::specs::Masks::bits_of))]
pub fn mask_rows()
    ensures none { bits_of (false ∷ false ∷ false ∷ false ∷ []) ≡ 0 }
    ensures first { bits_of (true ∷ false ∷ false ∷ false ∷ []) ≡ 1 }
    ensures second { bits_of (false ∷ true ∷ false ∷ false ∷ []) ≡ 2 }
    ensures third { bits_of (false ∷ false ∷ true ∷ false ∷ []) ≡ 4 }
    ensures fourth { bits_of (false ∷ false ∷ false ∷ true ∷ []) ≡ 8 }
    ensures all { bits_of (true ∷ true ∷ true ∷ true ∷ []) ≡ 15 }
{}
