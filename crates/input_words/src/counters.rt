//! What execution counters do from frame to frame.

ghost use Rattle.std.specs.Prelude.{◌≡◌, ◌++◌, [], true, false, map, OnOk, IfOk};
ghost use Rattle.std.specs.List.{list_any};
ghost use Rattle.input_words.specs.declared.counters.WatchedCounter.{WatchedCounter as Watched};
ghost use Rattle.input_words.specs.Counters.{are_same, counter_named, is_advanced, conduct_words, conduct_told, kept_behind, is_watched, with_counter, with_counters, counters_told, watched_behind};

use crate::inputs::{FrameTime, begin_line};
use packet_forms::{Counter, Name};
use row_forms::push_decimal;
use std::alloc::{AllocError, Global};

/// How many counters are watched at most.
const MOST_COUNTERS: usize = 64;

/// A counter that is watched: its last value, and whether it advanced in the frame before.
#[derive(Clone, Copy, Debug, PartialEq, Eq)]
pub(crate) struct WatchedCounter {
    pub(crate) name: Name,
    pub(crate) value: u32,
    pub(crate) advances: bool,
}

/// Watches the execution counters of a scenario's frames, the first 64 names that it counts: it tells in which frame one that advanced
/// stands still, and in which it goes on. A counter advances where a frame has it with another value than the last; of several of a name
/// in a frame the first counts, and where a frame has none it stands still.
#[derive(Drop)]
pub struct CounterWatch {
    watched: Vec<WatchedCounter>,
}

/// Whether these are the bytes of one name.
#[tactic(auto, unfolding(crate::specs::Counters::are_same))]
fn are_same(name: &[u8], other: &[u8]) -> bool
    ensures { result ≡ are_same name.now other.now }
{
    *name == *other
}

/// The counter of a name in a frame.
fn counter_named(counters: &[Counter], name: &Name) -> Option<u32>
    ensures { result ≡ counter_named counters.now name.now }
{
    for counter in counters {
        if are_same(counter.name.bytes(), name.bytes()) {
            return Some(counter.value);
        }
    }
    None
}

/// Whether a counter advances.
fn is_advanced(last: u32, now: Option<u32>) -> bool
    ensures { result ≡ is_advanced last now }
{
    match now {
        Some(value) => value != last,
        None => false,
    }
}

impl WatchedCounter {
    /// Appends what the counter does that it didn't do in the frame before.
    fn push_conduct(&self, now: Option<u32>, out: &mut Vec<u8>) -> Result<(), AllocError>
        ensures { OnOk result (out.new.items ≡ out.old.items ++ conduct_words self.now now) }
    {
        out.extend_from_slice(self.name.text().as_bytes())?;
        if self.advances {
            out.extend_from_slice(b"'s execution counter stands still with the value ")?;
            return push_decimal(now.unwrap_or(self.value), out);
        }
        out.extend_from_slice(b"'s execution counter goes on with the value ")?;
        push_decimal(now.unwrap_or(self.value), out)
    }

    /// Appends the line of the counter, where its conduct changes in a frame.
    fn tell_conduct(
        &self,
        time: FrameTime,
        now: Option<u32>,
        out: &mut Vec<u8>,
    ) -> Result<(), AllocError>
        ensures { OnOk result (out.new.items ≡ out.old.items ++ conduct_told time self.now now) }
    {
        if self.advances == is_advanced(self.value, now) {
            return Ok(());
        }
        begin_line(time, out)?;
        self.push_conduct(now, out)?;
        out.extend_from_slice(b"\n")
    }

    /// The counter behind a frame.
    fn kept_behind(&self, now: Option<u32>) -> WatchedCounter
        ensures { result ≡ kept_behind self.now now }
    {
        WatchedCounter {
            name: self.name,
            value: now.unwrap_or(self.value),
            advances: is_advanced(self.value, now),
        }
    }
}

/// Whether a name is among counters.
#[tactic(auto, unfolding(crate::specs::Counters::is_watched))]
fn is_watched(watched: &[WatchedCounter], name: &Name) -> bool
    ensures { result ≡ is_watched watched.now name.now }
{
    watched
        .iter()
        .any(|counter| are_same(counter.name.bytes(), name.bytes()))
}

/// Adds a counter, where its name is new and there is room.
fn add_counter(watched: &mut Vec<WatchedCounter>, counter: &Counter) -> Result<(), AllocError>
    ensures { OnOk result (watched.new.items ≡ with_counter watched.old.items counter.now) }
{
    if is_watched(watched.as_slice(), &counter.name) || watched.len() >= MOST_COUNTERS {
        return Ok(());
    }
    watched.push(WatchedCounter {
        name: counter.name,
        value: counter.value,
        advances: true,
    })?;
    Ok(())
}

/// Adds the counters of a frame whose names are new.
fn add_counters(watched: &mut Vec<WatchedCounter>, counters: &[Counter]) -> Result<(), AllocError>
    ensures { OnOk result (watched.new.items ≡ with_counters watched.old.items counters.now) }
{
    for counter in counters {
        add_counter(watched, counter)?;
    }
    Ok(())
}

/// Appends the lines of the counters whose conduct changes in a frame.
#[tactic(auto, unfolding(crate::specs::Counters::counters_told))]
fn tell_conducts(
    watched: &[WatchedCounter],
    time: FrameTime,
    counters: &[Counter],
    out: &mut Vec<u8>,
) -> Result<(), AllocError>
    ensures { OnOk result (out.new.items ≡ out.old.items
        ++ counters_told time watched.now counters.now) }
{
    for counter in watched {
        counter.tell_conduct(time, counter_named(counters, &counter.name), out)?;
    }
    Ok(())
}

/// The counters behind a frame that were watched before it.
fn keep_counters(
    alloc: Global,
    watched: &[WatchedCounter],
    counters: &[Counter],
) -> Result<Vec<WatchedCounter>, AllocError>
    ensures { IfOk result (λ kept. kept.items
        ≡ map (λ (w : Watched). kept_behind w (counter_named counters.now w.name)) watched.now) }
{
    let mut kept = Vec::new(alloc);
    for counter in watched {
        kept.push(counter.kept_behind(counter_named(counters, &counter.name)))?;
    }
    Ok(kept)
}

/// Whether some of these counters advanced.
fn has_advanced(watched: &[WatchedCounter]) -> bool
    ensures { result ≡ list_any (λ (w : Watched). w.advances) watched.now }
{
    watched.iter().any(|counter| counter.advances)
}

/// Whether a frame has no counters and none of these advanced.
fn is_resting(watched: &[WatchedCounter], counters: &[Counter]) -> bool
    ensures counters { result ≡ true → counters.now ≡ [] }
    ensures watched { result ≡ true → list_any (λ (w : Watched). w.advances) watched.now ≡ false }
{
    if has_advanced(watched) {
        return false;
    }
    counters.is_empty()
}

impl CounterWatch {
    /// A watch that saw no frame.
    pub fn new(alloc: Global) -> CounterWatch
        ensures { result.watched.items ≡ [] }
    {
        CounterWatch {
            watched: Vec::new(alloc),
        }
    }

    /// Appends what the watched counters do in the next frame, which has these, a line for each whose conduct changes.
    pub fn tell(
        &mut self,
        alloc: Global,
        time: FrameTime,
        counters: &[Counter],
        out: &mut Vec<u8>,
    ) -> Result<(), AllocError>
        ensures told { OnOk result (out.new.items ≡ out.old.items
            ++ counters_told time self.old.watched.items counters.now) }
        ensures watched { OnOk result (self.new.watched.items
            ≡ watched_behind self.old.watched.items counters.now) }
    {
        if is_resting(self.watched.as_slice(), counters) {
            return Ok(());
        }
        tell_conducts(self.watched.as_slice(), time, counters, out)?;
        let mut kept = keep_counters(alloc, self.watched.as_slice(), counters)?;
        add_counters(&mut kept, counters)?;
        self.watched = kept;
        Ok(())
    }
}
