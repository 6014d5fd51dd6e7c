//! What a line says by itself, where it stands.
ghost use Rattle.std.specs.Prelude.{◌≡◌, ◌≤◌, ◌<◌, ℕ, List, [], length, take, IfOk, IfSome, Some, None, Ok, true};
ghost use Rattle.scenario.specs.Words.{words};
ghost use Rattle.scenario.specs.Sentences.{Gives, IsPlaced, IsOfVerb, as_said, verb_of, Begins, stands_at, none, one, two, three, number_or_bad, epoch_line, region_line, hex_said, send_line, app_line, upset_line, hold_line, activate_line, bare_line, sentence_of, line_says, packet_of, packet_said, verb_at};

use crate::frame::{App, Upset};
use crate::reason::Reason;
use crate::words::{app, behind_spaces, hex, kind, name, number, split_word};
use memory_window::Region;
use packet_forms::{Counter, PACKET_BYTES, Packet};

/// Where a line stands.
#[derive(Clone, Copy, Debug, PartialEq, Eq)]
pub(crate) enum Place {
    /// Nothing but skipped lines came before.
    Opening,
    /// Behind `epoch` and before `start`.
    Header,
    /// Directly behind `start` or a `tick`.
    Between,
    /// Behind an item of a frame.
    Inside,
    /// Behind `end`.
    Ended,
}

/// The first word of a line.
#[derive(Clone, Copy, Debug, PartialEq, Eq)]
pub(crate) enum Verb {
    Epoch,
    Region,
    Start,
    Send,
    App,
    Upset,
    Hold,
    Activate,
    Tick,
    End,
}

/// What a line says.
#[derive(Drop)]
pub(crate) enum Sentence {
    Epoch(u32),
    Region(Region),
    Start,
    Send(Packet),
    Count(Counter),
    Upset(Upset),
    Hold(App),
    Activate(u32),
    Tick,
    End,
}

/// The verb of a word of more than five letters, as few lines have.
#[cold]
#[tactic(auto, unfolding(crate::specs::Sentences::verb_of))]
fn long_verb(word: &[u8]) -> Option<Verb>
    requires { 5 < length word.now }
    ensures { result ≡ verb_of word.now }
{
    if word == b"region".as_slice() {
        return Some(Verb::Region);
    }
    if word == b"activate".as_slice() {
        return Some(Verb::Activate);
    }
    None
}

#[tactic(auto, unfolding(crate::specs::Sentences::verb_of))]
fn known_verb(word: &[u8]) -> Option<Verb>
    ensures { result ≡ verb_of word.now }
{
    if word.len() > 5 {
        return long_verb(word);
    }
    match word {
        b"epoch" => Some(Verb::Epoch),
        b"start" => Some(Verb::Start),
        b"send" => Some(Verb::Send),
        b"app" => Some(Verb::App),
        b"upset" => Some(Verb::Upset),
        b"hold" => Some(Verb::Hold),
        b"tick" => Some(Verb::Tick),
        b"end" => Some(Verb::End),
        _ => None,
    }
}

pub(crate) fn may_stand(place: Place, verb: Verb) -> bool
    ensures { result ≡ stands_at place verb }
{
    match verb {
        Verb::Epoch => matches!(place, Place::Opening),
        Verb::Region | Verb::Start => matches!(place, Place::Header),
        Verb::Send | Verb::App | Verb::Upset | Verb::Hold | Verb::Activate | Verb::Tick => {
            matches!(place, Place::Between | Place::Inside)
        }
        Verb::End => matches!(place, Place::Between),
    }
}

fn no_word(rest: &[u8]) -> Result<(), Reason>
    ensures { Gives (λ w. w) result (none (words rest.now)) }
{
    match split_word(rest) {
        Some(_) => Err(Reason::Word),
        None => Ok(()),
    }
}

fn one_word(rest: &[u8]) -> Result<&[u8], Reason>
    ensures word { Gives (λ w. w.now) result (one (words rest.now)) }
    ensures size { IfOk result (λ w. length w.now ≤ length rest.now) }
{
    match split_word(rest) {
        Some((word, rest)) => {
            no_word(rest)?;
            Ok(word)
        }
        None => Err(Reason::Word),
    }
}

fn two_words(rest: &[u8]) -> Result<(&[u8], &[u8]), Reason>
    ensures { Gives (λ pair. (pair.0.now, pair.1.now)) result (two (words rest.now)) }
{
    match split_word(rest) {
        Some((first, rest)) => {
            let second = one_word(rest)?;
            Ok((first, second))
        }
        None => Err(Reason::Word),
    }
}

fn three_words(rest: &[u8]) -> Result<(&[u8], &[u8], &[u8]), Reason>
    ensures { Gives (λ parts. (parts.0.now, parts.1.now, parts.2.now)) result
        (three (words rest.now)) }
{
    match split_word(rest) {
        Some((first, rest)) => {
            let (second, third) = two_words(rest)?;
            Ok((first, second, third))
        }
        None => Err(Reason::Word),
    }
}

#[tactic(auto, unfolding(crate::specs::Sentences::number_or_bad))]
fn number_or_bad(most: u32, word: &[u8]) -> Result<u32, Reason>
    ensures value { result ≡ number_or_bad most word.now }
    ensures bound { IfOk result (λ n. n ≤ most) }
{
    match number(most, word) {
        Some(number) => Ok(number),
        None => Err(Reason::Number),
    }
}

/// `epoch N`
#[tactic(auto, unfolding(crate::specs::Sentences::epoch_line))]
fn epoch_line(rest: &[u8], said: &mut Option<Sentence>) -> Result<(), Reason>
    ensures value { Gives (λ _. said.new) result (as_said (epoch_line (words rest.now))) }
    ensures verb { IfOk result (λ _. IsOfVerb Verb.Epoch said.new) }
{
    let word = one_word(rest)?;
    let time = number_or_bad(4_294_000_000, word)?;
    *said = Some(Sentence::Epoch(time));
    Ok(())
}

/// `region KIND START LEN`
#[tactic(auto, unfolding(crate::specs::Sentences::region_line))]
fn region_line(rest: &[u8], said: &mut Option<Sentence>) -> Result<(), Reason>
    ensures value { Gives (λ _. said.new) result (as_said (region_line (words rest.now))) }
    ensures verb { IfOk result (λ _. IsOfVerb Verb.Region said.new) }
{
    let (kind_word, start_word, len_word) = three_words(rest)?;
    let kind = kind(kind_word).ok_or(Reason::Word)?;
    let start = number_or_bad(u32::MAX, start_word)?;
    let len = number_or_bad(u32::MAX, len_word)?;
    *said = Some(Sentence::Region(Region { kind, start, len }));
    Ok(())
}

fn packet(bytes: &[u8]) -> Result<Packet, Reason>
    ensures { result ≡ packet_of bytes.now }
{
    match Packet::from_bytes(bytes) {
        Ok(packet) => Ok(packet),
        Err(_) => Err(Reason::Packet),
    }
}

/// What the word behind `send` says. Its bytes are written into the places first, whatever stood there.
#[tactic(auto, unfolding(crate::specs::Sentences::hex_said))]
fn read_hex(
    word: &[u8],
    places: &mut [u8; PACKET_BYTES],
    said: &mut Option<Sentence>,
) -> Result<(), Reason>
    ensures value { Gives (λ _. said.new) result (as_said (hex_said word.now)) }
    ensures verb { IfOk result (λ _. IsOfVerb Verb.Send said.new) }
{
    if word.len() > 2 * PACKET_BYTES {
        return Err(Reason::Packet);
    }
    let len = hex(word, places).ok_or(Reason::Packet)?;
    say_send(&places[..len], said)
}

/// Says `send` with the packet of these bytes. Where the line before said it too, the packet is written over that one, since a
/// packet is large.
fn say_send(bytes: &[u8], said: &mut Option<Sentence>) -> Result<(), Reason>
    ensures value { Gives (λ _. said.new) result (as_said (packet_said bytes.now)) }
    ensures verb { IfOk result (λ _. IsOfVerb Verb.Send said.new) }
{
    if let Some(Sentence::Send(packet)) = said {
        return match packet.set_bytes(bytes) {
            Ok(()) => Ok(()),
            Err(_) => Err(Reason::Packet),
        };
    }
    let packet = packet(bytes)?;
    *said = Some(Sentence::Send(packet));
    Ok(())
}

/// How many bytes the digits write that come behind `send` and end with their line, where they write any: they stand in the first
/// of the places then, and are said where they are a packet.
pub(crate) fn read_send(rest: &[u8], places: &mut [u8; PACKET_BYTES]) -> Option<usize>
    ensures said { IfSome result (λ count. packet_of (take count places.new)
        ≡ Ok (take count places.new) → as_said (send_line (words rest.now))
        ≡ Ok (Some (Sentence.Send (take count places.new)))) }
    ensures few { IfSome result (λ count. count ≤ PACKET_BYTES) }
{
    let word = behind_spaces(rest);
    if word.len() > 2 * PACKET_BYTES {
        return None;
    }
    hex(word, places)
}

/// `send HEX`
#[tactic(auto, unfolding(crate::specs::Sentences::send_line))]
fn send_line(
    rest: &[u8],
    places: &mut [u8; PACKET_BYTES],
    said: &mut Option<Sentence>,
) -> Result<(), Reason>
    ensures value { Gives (λ _. said.new) result (as_said (send_line (words rest.now))) }
    ensures verb { IfOk result (λ _. IsOfVerb Verb.Send said.new) }
{
    // Mostly the digits end with the line. A space isn't one, so it needn't be looked for.
    match read_hex(behind_spaces(rest), places, said) {
        Ok(()) => Ok(()),
        Err(_) => {
            let word = one_word(rest)?;
            read_hex(word, places, said)
        }
    }
}

/// `app NAME N`
#[tactic(auto, unfolding(crate::specs::Sentences::app_line))]
fn app_line(rest: &[u8], said: &mut Option<Sentence>) -> Result<(), Reason>
    ensures value { Gives (λ _. said.new) result (as_said (app_line (words rest.now))) }
    ensures verb { IfOk result (λ _. IsOfVerb Verb.App said.new) }
{
    let (name_word, value_word) = two_words(rest)?;
    let name = name(name_word).ok_or(Reason::Word)?;
    let value = number_or_bad(u32::MAX, value_word)?;
    *said = Some(Sentence::Count(Counter { name, value }));
    Ok(())
}

/// `upset ADDR VALUE`
#[tactic(auto, unfolding(crate::specs::Sentences::upset_line))]
fn upset_line(rest: &[u8], said: &mut Option<Sentence>) -> Result<(), Reason>
    ensures value { Gives (λ _. said.new) result (as_said (upset_line (words rest.now))) }
    ensures verb { IfOk result (λ _. IsOfVerb Verb.Upset said.new) }
{
    let (at_word, value_word) = two_words(rest)?;
    let at = number_or_bad(u32::MAX, at_word)?;
    let value = number_or_bad(255, value_word)?;
    *said = Some(Sentence::Upset(Upset {
        at,
        value: value as u8,
    }));
    Ok(())
}

/// `hold APP`
#[tactic(auto, unfolding(crate::specs::Sentences::hold_line))]
fn hold_line(rest: &[u8], said: &mut Option<Sentence>) -> Result<(), Reason>
    ensures value { Gives (λ _. said.new) result (as_said (hold_line (words rest.now))) }
    ensures verb { IfOk result (λ _. IsOfVerb Verb.Hold said.new) }
{
    let word = one_word(rest)?;
    let app = app(word).ok_or(Reason::Word)?;
    *said = Some(Sentence::Hold(app));
    Ok(())
}

/// `activate N`
#[tactic(auto, unfolding(crate::specs::Sentences::activate_line))]
fn activate_line(rest: &[u8], said: &mut Option<Sentence>) -> Result<(), Reason>
    ensures value { Gives (λ _. said.new) result (as_said (activate_line (words rest.now))) }
    ensures verb { IfOk result (λ _. IsOfVerb Verb.Activate said.new) }
{
    let word = one_word(rest)?;
    let file = number_or_bad(u32::MAX, word)?;
    *said = Some(Sentence::Activate(file));
    Ok(())
}

fn start_line(rest: &[u8], said: &mut Option<Sentence>) -> Result<(), Reason>
    ensures value { Gives (λ _. said.new) result
        (as_said (bare_line Sentence.Start (words rest.now))) }
    ensures verb { IfOk result (λ _. IsOfVerb Verb.Start said.new) }
{
    no_word(rest)?;
    *said = Some(Sentence::Start);
    Ok(())
}

/// Says `tick`. Where the line before said it too nothing is written, since a sentence is large.
fn say_tick(said: &mut Option<Sentence>)
    ensures { said.new ≡ Some Sentence.Tick }
{
    if let Some(Sentence::Tick) = said {
        return;
    }
    *said = Some(Sentence::Tick);
}

fn tick_line(rest: &[u8], said: &mut Option<Sentence>) -> Result<(), Reason>
    ensures value { Gives (λ _. said.new) result
        (as_said (bare_line Sentence.Tick (words rest.now))) }
    ensures verb { IfOk result (λ _. IsOfVerb Verb.Tick said.new) }
{
    no_word(rest)?;
    say_tick(said);
    Ok(())
}

fn end_line(rest: &[u8], said: &mut Option<Sentence>) -> Result<(), Reason>
    ensures value { Gives (λ _. said.new) result
        (as_said (bare_line Sentence.End (words rest.now))) }
    ensures verb { IfOk result (λ _. IsOfVerb Verb.End said.new) }
{
    no_word(rest)?;
    *said = Some(Sentence::End);
    Ok(())
}

#[tactic(auto, unfolding(crate::specs::Sentences::sentence_of))]
fn read_sentence(
    verb: Verb,
    rest: &[u8],
    places: &mut [u8; PACKET_BYTES],
    said: &mut Option<Sentence>,
) -> Result<(), Reason>
    ensures value { Gives (λ _. said.new) result (as_said (sentence_of verb (words rest.now))) }
    ensures verb { IfOk result (λ _. IsOfVerb verb said.new) }
{
    match verb {
        Verb::Epoch => epoch_line(rest, said),
        Verb::Region => region_line(rest, said),
        Verb::Start => start_line(rest, said),
        Verb::Send => send_line(rest, places, said),
        Verb::App => app_line(rest, said),
        Verb::Upset => upset_line(rest, said),
        Verb::Hold => hold_line(rest, said),
        Verb::Activate => activate_line(rest, said),
        Verb::Tick => tick_line(rest, said),
        Verb::End => end_line(rest, said),
    }
}

#[tactic(auto, unfolding(crate::specs::Sentences::verb_at))]
fn verb_at(place: Place, word: &[u8]) -> Result<Verb, Reason>
    ensures value { result ≡ verb_at place word.now }
    ensures placed { IfOk result (λ verb. stands_at place verb ≡ true) }
{
    match known_verb(word) {
        Some(verb) => {
            if may_stand(place, verb) {
                Ok(verb)
            } else {
                Err(Reason::Word)
            }
        }
        None => Err(Reason::Word),
    }
}

/// What comes behind the first word of a line that begins with `send` and a space: no word needs to be looked for there.
pub(crate) fn behind_send(line: &[u8]) -> Option<&[u8]>
    ensures { IfSome result (λ rest. Begins line.now Verb.Send (words rest.now)) }
{
    match line.strip_prefix(b"send ") {
        Some(rest) => Some(rest),
        None => None,
    }
}

/// What a line says that stands at a place, by its words: nothing where it is skipped.
#[tactic(auto, unfolding(crate::specs::Sentences::line_says, crate::specs::Sentences::said))]
fn any_line_says(
    place: Place,
    line: &[u8],
    places: &mut [u8; PACKET_BYTES],
    said: &mut Option<Sentence>,
) -> Result<(), Reason>
    ensures value { Gives (λ _. said.new) result (line_says place line.now) }
    ensures placed { IfOk result (λ _. IsPlaced place said.new) }
{
    match split_word(line) {
        Some((first, rest)) => {
            if first[0] == b'#' {
                *said = None;
                return Ok(());
            }
            let verb = verb_at(place, first)?;
            read_sentence(verb, rest, places, said)
        }
        None => {
            *said = None;
            Ok(())
        }
    }
}

/// Whether a line is `tick` without any spaces.
pub(crate) fn is_tick(line: &[u8]) -> bool
    ensures { result ≡ true → Begins line.now Verb.Tick [] }
{
    line == b"tick".as_slice()
}

/// Whether such a line may stand at a place.
pub(crate) fn tick_says(place: Place) -> Result<(), Reason>
    ensures value { (line : List ℕ) → Begins line Verb.Tick []
        → Gives (λ _. Some Sentence.Tick) result (line_says place line) }
    ensures placed { IfOk result (λ _. IsPlaced place (Some Sentence.Tick)) }
{
    if may_stand(place, Verb::Tick) {
        Ok(())
    } else {
        Err(Reason::Word)
    }
}

/// What a line says that stands at a place: nothing where it is skipped. `places` are for the bytes of a packet.
#[tactic(auto, unfolding(crate::specs::Sentences::line_says, crate::specs::Sentences::said))]
pub(crate) fn line_says(
    place: Place,
    line: &[u8],
    places: &mut [u8; PACKET_BYTES],
    said: &mut Option<Sentence>,
) -> Result<(), Reason>
    ensures value { Gives (λ _. said.new) result (line_says place line.now) }
    ensures placed { IfOk result (λ _. IsPlaced place said.new) }
{
    match behind_send(line) {
        Some(rest) => {
            if may_stand(place, Verb::Send) {
                send_line(rest, places, said)
            } else {
                Err(Reason::Word)
            }
        }
        None => any_line_says(place, line, places, said),
    }
}
