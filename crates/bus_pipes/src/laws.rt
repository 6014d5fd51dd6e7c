//! Laws of delivery, as contracts of functions that do nothing.

ghost use Rattle.std.specs.Prelude.{◌≡◌, ◌≤◌, ℕ, Bool, List, [], ◌∷◌, ◌++◌, ◌==◌, length, map, replicate, true, false, Some, None};
ghost use Rattle.std.specs.List.{list_any};
ghost use Rattle.packet_forms.specs.Built.{command_of};
ghost use Rattle.bus_pipes.specs.Counted.{counted_ids};
ghost use Rattle.bus_pipes.specs.Pipes.{Pipes, empty_pipes, depth_of, pipe_of, packets_in, with_packets};
ghost use Rattle.bus_pipes.specs.Delivery.{after_offer, drop_of, after_offers, drops_from};
ghost use Rattle.bus_pipes.specs.declared.names.PipeName.{PipeName};

/// Delivery of a list goes packet by packet, and list by list.
pub fn delivery_goes_on()
    ensures kept_none { (pipes : Pipes) → after_offers pipes [] ≡ pipes }
    ensures kept_more { (pipes : Pipes) (packets : List (List ℕ)) (p : List ℕ)
        → after_offers pipes (packets ++ p ∷ []) ≡ after_offer (after_offers pipes packets) p }
    ensures kept_both { (pipes : Pipes) (packets more : List (List ℕ))
        → after_offers pipes (packets ++ more) ≡ after_offers (after_offers pipes packets) more }
    ensures drops_none { (pipes : Pipes) → drops_from pipes [] ≡ [] }
    ensures drops_more { (pipes : Pipes) (packets : List (List ℕ)) (p : List ℕ)
        → drops_from pipes (packets ++ p ∷ []) ≡ drops_from pipes packets
        ++ drop_of (after_offers pipes packets) p }
    ensures drops_both { (pipes : Pipes) (packets more : List (List ℕ))
        → drops_from pipes (packets ++ more) ≡ drops_from pipes packets
        ++ drops_from (after_offers pipes packets) more }
    ensures drops_few { (pipes : Pipes) (packets : List (List ℕ))
        → length (drops_from pipes packets) ≤ length packets }
{}

/// A pipe has the packets that it was given, and the other pipes keep theirs.
pub fn pipes_are_apart()
    ensures same { (name : PipeName) (packets : List (List ℕ)) (pipes : Pipes)
        → packets_in name (with_packets name packets pipes) ≡ packets }
    ensures other { (name held : PipeName) (packets : List (List ℕ)) (pipes : Pipes)
        → (name ≡ held → ⊥) → packets_in held (with_packets name packets pipes)
        ≡ packets_in held pipes }
{}

/// Which pipes are there doesn't change by what they are offered.
pub fn watching_stays()
    ensures { (pipes : Pipes) (packets : List (List ℕ))
        → (after_offers pipes packets).watched ≡ pipes.watched }
{}

/// The eleven ids that go to a pipe that is always there.
pub fn worked_routes()
    ensures hs_command { (watched : Bool) → pipe_of watched 0x18AE ≡ Some PipeName.Hs }
    ensures hs_request { (watched : Bool) → pipe_of watched 0x18AF ≡ Some PipeName.Hs }
    ensures event { (watched : Bool) → pipe_of watched 0x0808 ≡ Some PipeName.HsEv }
    ensures cs_command { (watched : Bool) → pipe_of watched 0x189F ≡ Some PipeName.Cs }
    ensures cs_request { (watched : Bool) → pipe_of watched 0x18A0 ≡ Some PipeName.Cs }
    ensures sc_command { (watched : Bool) → pipe_of watched 0x18A9 ≡ Some PipeName.Sc }
    ensures sc_request { (watched : Bool) → pipe_of watched 0x18AA ≡ Some PipeName.Sc }
    ensures mm_command { (watched : Bool) → pipe_of watched 0x1888 ≡ Some PipeName.Mm }
    ensures mm_request { (watched : Bool) → pipe_of watched 0x1889 ≡ Some PipeName.Mm }
    ensures md_command { (watched : Bool) → pipe_of watched 0x1890 ≡ Some PipeName.Md }
    ensures md_request { (watched : Bool) → pipe_of watched 0x1891 ≡ Some PipeName.Md }
{}

/// The ids that go to a pipe where the limit checker is there.
pub fn worked_watched_routes()
    ensures command { pipe_of true 0x18A6 ≡ Some PipeName.Lc }
    ensures request { pipe_of true 0x18A7 ≡ Some PipeName.Lc }
    ensures telemetry { map (pipe_of true) (0x08AD ∷ 0x08A4 ∷ 0x08AA ∷ 0x0887 ∷ 0x0890 ∷ 0x088A
        ∷ 0x088B ∷ 0x0891 ∷ 0x0892 ∷ 0x0893 ∷ 0x0894 ∷ 0x08A5 ∷ 0x08A7 ∷ [])
        ≡ replicate 13 (Some PipeName.LcTlm) }
    ensures neither { map (pipe_of true) (0x0886 ∷ 0x0895 ∷ 0x18A8 ∷ 0x18AB ∷ [])
        ≡ replicate 4 None }
{}

/// No other id goes to a pipe: of all where the limit checker isn't there, and of the others where it is.
pub fn other_ids_go_nowhere()
    ensures away { (id : ℕ) → list_any (λ routed. id == routed) (0x18AE ∷ 0x18AF ∷ 0x0808 ∷ 0x189F
        ∷ 0x18A0 ∷ 0x18A9 ∷ 0x18AA ∷ 0x1888 ∷ 0x1889 ∷ 0x1890 ∷ 0x1891 ∷ []) ≡ false
        → pipe_of false id ≡ None }
    ensures watched { (id : ℕ) → pipe_of false id ≡ None
        → list_any (λ routed. id == routed) (0x18A6 ∷ 0x18A7 ∷ 0x08AD ∷ 0x08A4 ∷ 0x08AA ∷ 0x0887
        ∷ 0x0890 ∷ 0x088A ∷ 0x088B ∷ 0x0891 ∷ 0x0892 ∷ 0x0893 ∷ 0x0894 ∷ 0x08A5 ∷ 0x08A7 ∷ [])
        ≡ false → pipe_of true id ≡ None }
{}

/// The depths of the pipes, and the ids that get sequence counts.
pub fn worked_tables()
    ensures depths { map depth_of (PipeName.Hs ∷ PipeName.HsEv ∷ PipeName.Cs ∷ PipeName.Sc
        ∷ PipeName.Mm ∷ PipeName.Md ∷ PipeName.Lc ∷ PipeName.LcTlm ∷ []) ≡ 16 ∷ 32 ∷ 16 ∷ 16 ∷ 16
        ∷ 16 ∷ 16 ∷ 256 ∷ [] }
    ensures counted { counted_ids ≡ 0x0808 ∷ 0x08AD ∷ 0x08A4 ∷ 0x08AA ∷ 0x0887 ∷ 0x0890 ∷ 0x088A
        ∷ 0x088B ∷ 0x0891 ∷ 0x0892 ∷ 0x0893 ∷ 0x0894 ∷ 0x08A5 ∷ 0x08A7 ∷ [] }
{}

/// Seventeen no-ops and a housekeeping request of MM: the seventeenth is dropped for the limit, the request for the depth.
pub fn worked_drops()
    ensures { (watched : Bool) → drops_from (empty_pipes watched)
        (replicate 17 (command_of 0x1888 0 []) ++ command_of 0x1889 0 [] ∷ [])
        ≡ record { pipe = PipeName.Mm; full = false; packet = command_of 0x1888 0 [] }
        ∷ record { pipe = PipeName.Mm; full = true; packet = command_of 0x1889 0 [] } ∷ [] }
{}
