//! Reading the scenario's text piece by piece.

ghost use Rattle.std.specs.Prelude.{◌≡◌, ◌≢◌, ℕ, ◌+◌, ◌<◌, ◌≤◌, ◌↔◌, List, [], length, take, drop, true, false, IsTrue, OnOk, OnErr};
ghost use Rattle.fsw_outside.specs.Told.{WhereTold};
ghost use Rattle.fsw_outside.specs.Files.{Content};
ghost use Rattle.fsw_outside.specs.Causes.{HasCause, HasRisen};
ghost use Rattle.scenario.specs.Texts.{Text, Given};
ghost use Rattle.scenario.specs.Standing.{Waits, Shows, is_finished, fed};
ghost use Rattle.rehearsal.specs.Fed.{nothing_read};
ghost use Rattle.rehearsal.specs.Text.{Fills, IsRead, IsFedOn, Holds, Gives, work_left};

use crate::source::Source;
use fsw_outside::Failed;
use scenario::{Item, Reader};
use std::marker::Model;

/// How many bytes are asked for at once.
pub const PIECE: usize = 4096;

/// What comes next: an item of the text, its end, or nothing before more of it is read.
#[derive(Clone, Copy, Debug, PartialEq, Eq)]
pub enum Next {
    /// The header.
    Header,
    /// A frame.
    Frame,
    /// The text ended well.
    End,
    /// The text is bad or unended, at this line and for this reason.
    Bad { line: u32, reason: u8 },
    /// All that was read is fed, and more is wanted.
    Dry,
}

/// Bytes that were read and are not yet fed, how many were read so far, and whether the file's end was reached.
#[derive(Drop)]
pub struct Feed {
    piece: [u8; PIECE],
    from: usize,
    to: usize,
    total: u32,
    ended: bool,
}

impl Model for Feed {
    ghost use Rattle.std.specs.Prelude.{◌≡◌, ◌≤◌, length, take, drop};
    ghost use Rattle.rehearsal.specs.Fed.{Fed};

    ghost Value = { Fed };

    ghost view = { λ f.
        record { pending = drop f.from (take f.to f.piece); total = f.total; ended = f.ended } };

    ghost invariant = { λ f. (f.from ≤ f.to) × (f.to ≤ 4096) × (length f.piece ≡ 4096) };
}

impl Feed {
    /// Nothing was read.
    pub fn new() -> Feed
        ensures { result ≡ nothing_read }
    {
        Feed {
            piece: [0; PIECE],
            from: 0,
            to: 0,
            total: 0,
            ended: false,
        }
    }

    /// The bytes that were read and aren't fed yet.
    fn pending(&self) -> &[u8]
        ensures { result.now ≡ self.now.pending }
    {
        &self.piece[self.from..self.to]
    }

    /// Some of the pending bytes were fed.
    fn advance(&mut self, count: usize)
        requires { count ≤ length self.old.pending }
        ensures { self.new ≡ record self.old { pending = drop count self.old.pending } }
    {
        self.from += count;
    }

    /// Reads a piece, where nothing is pending. Where the file's end is reached the feed has ended.
    fn fill<S: Source>(&mut self, source: &mut S) -> Result<(), Failed>
        requires opened { IsTrue (S.is_open source.old) }
        requires empty { self.old.pending ≡ [] }
        requires small { self.old.total ≤ 16777856 }
        ensures content { WhereTold (S.told source.old) (S.told source.new)
            (Fills result self.new) }
        ensures total { OnOk result (self.new.total ≡ self.old.total + length self.new.pending) }
        ensures few { length self.new.pending ≤ 4096 }
        ensures ended { OnOk result ((self.new.ended ≡ true) ↔ (self.new.pending ≡ [])) }
        ensures same { OnErr result (self.new ≡ self.old) }
        ensures cause { HasCause (S.told source.new) (S.faults source.old)
            (S.faults source.new) result }
        ensures is_open { IsTrue (S.is_open source.new) }
        ensures mark { S.mark source.new ≡ S.mark source.old }
    {
        match source.read(&mut self.piece) {
            Ok(count) => {
                self.from = 0;
                self.to = count;
                self.total += count as u32;
                self.ended = count == 0;
                Ok(())
            }
            Err(failed) => {
                self.from = 0;
                self.to = 0;
                Err(failed)
            }
        }
    }

    /// Whether the file's end was reached.
    fn ended(&self) -> bool
        ensures { result ≡ self.now.ended }
    {
        self.ended
    }

    /// Feeds what is pending, or a first part of it.
    fn give(&mut self, reader: &mut Reader)
        requires waits { Waits reader.old }
        requires some { 0 < length self.old.pending }
        requires unfinished { is_finished reader.old ≡ false }
        ensures holds { (text : Text) (gave : List Given) → Holds reader.old self.old text gave
            → text.closed ≡ false
            → (taken : ℕ) × Holds reader.new self.new (fed text (take taken self.old.pending)) gave
            × (self.new.pending ≡ drop taken self.old.pending) }
        ensures less { work_left reader.new self.new < work_left reader.old self.old }
    {
        let taken = reader.feed(self.pending());
        self.advance(taken);
    }

    /// Feeds the line `tick` that is pending, where one is and can be taken, and answers whether: its frame is the reader's next item.
    #[inline(always)]
    fn give_tick(&mut self, reader: &mut Reader) -> bool
        ensures taken { result ≡ true → (text : Text) (gave : List Given)
            → Holds reader.old self.old text gave
            → (now : Text) × Gives Next.Frame reader.new self.new now gave
            × IsFedOn text self.old.pending now self.new.pending }
        ensures kept { result ≡ false → (text : Text) (gave : List Given)
            → Holds reader.old self.old text gave → Holds reader.new self.new text gave }
        ensures same { result ≡ false → self.new ≡ self.old }
        ensures shows { result ≡ true → Shows reader.new }
        ensures less { work_left reader.new self.new ≤ work_left reader.old self.old }
    {
        if !reader.take_tick(self.pending()) {
            return false;
        }
        self.advance(5);
        true
    }
}

/// The next item of the text, as far as the pending bytes say it. A line that only says `tick` is taken where it lies.
#[inline(always)]
pub fn next_item(reader: &mut Reader, feed: &mut Feed) -> Next
    requires holds { (text : Text) × (gave : List Given) × Holds reader.old feed.old text gave }
    ensures gives { (text : Text) (gave : List Given) → Holds reader.old feed.old text gave
        → (now : Text) × Gives result reader.new feed.new now gave
        × IsFedOn text feed.old.pending now feed.new.pending }
    ensures shows { result ≡ Next.Frame → Shows reader.new }
    ensures dry { result ≡ Next.Dry → (feed.new.pending ≡ []) × (feed.new.ended ≡ false)
        × (feed.new.total ≤ 16777856) }
    ensures less { work_left reader.new feed.new ≤ work_left reader.old feed.old }
{
    if feed.give_tick(reader) {
        return Next::Frame;
    }
    next_by_lines(reader, feed)
}

/// The next item of the text, as far as the pending bytes say it, by the lines that they are fed to.
#[inline(never)]
fn next_by_lines(reader: &mut Reader, feed: &mut Feed) -> Next
    requires holds { (text : Text) × (gave : List Given) × Holds reader.old feed.old text gave }
    ensures gives { (text : Text) (gave : List Given) → Holds reader.old feed.old text gave
        → (now : Text) × Gives result reader.new feed.new now gave
        × IsFedOn text feed.old.pending now feed.new.pending }
    ensures shows { result ≡ Next.Frame → Shows reader.new }
    ensures dry { result ≡ Next.Dry → (feed.new.pending ≡ []) × (feed.new.ended ≡ false)
        × (feed.new.total ≤ 16777856) }
    ensures less { work_left reader.new feed.new ≤ work_left reader.old feed.old }
{
    'items: loop {
        match reader.next() {
            Item::Header => return Next::Header,
            Item::Frame => return Next::Frame,
            Item::End => return Next::End,
            Item::Bad { line, reason } => return Next::Bad { line, reason },
            Item::More => {}
        }
        if feed.pending().is_empty() {
            return Next::Dry;
        }
        feed.give(reader);
    }
}

/// Reads a piece of the text, where nothing is pending, and tells the reader of the text's end.
pub fn fetch<S: Source>(source: &mut S, reader: &mut Reader, feed: &mut Feed) -> Result<(), Failed>
    requires opened { IsTrue (S.is_open source.old) }
    requires empty { feed.old.pending ≡ [] }
    requires small { feed.old.total ≤ 16777856 }
    requires open_text { feed.old.ended ≡ false }
    ensures reads { (text : Text) (gave : List Given) → Holds reader.old feed.old text gave
        → (now : Text) × Holds reader.new feed.new now gave × OnErr result (now ≡ text)
        × WhereTold (S.told source.old) (S.told source.new)
        (λ before after. (start : Content) → IsRead text [] start before
        → IsRead now feed.new.pending start after) }
    ensures less { OnOk result (work_left reader.new feed.new < work_left reader.old feed.old) }
    ensures same_reader { OnErr result (reader.new ≡ reader.old) }
    ensures same_feed { OnErr result (feed.new ≡ feed.old) }
    ensures cause { HasCause (S.told source.new) (S.faults source.old)
        (S.faults source.new) result }
    ensures is_open { IsTrue (S.is_open source.new) }
    ensures mark { S.mark source.new ≡ S.mark source.old }
{
    let Ok(()) = feed.fill(source) else {
        return Err(Failed);
    };
    if feed.ended() {
        reader.finish();
        return Ok(());
    }
    Ok(())
}

/// Reads up to the next item of the text; dry where the source failed before there was one.
pub fn read_on<S: Source>(source: &mut S, reader: &mut Reader, feed: &mut Feed) -> Next
    requires opened { IsTrue (S.is_open source.old) }
    requires holds { (text : Text) × (gave : List Given) × Holds reader.old feed.old text gave }
    ensures reads { (text : Text) (gave : List Given) → Holds reader.old feed.old text gave
        → (now : Text) × Gives result reader.new feed.new now gave
        × WhereTold (S.told source.old) (S.told source.new)
        (λ before after. (start : Content) → IsRead text feed.old.pending start before
        → IsRead now feed.new.pending start after) }
    ensures shows { result ≡ Next.Frame → Shows reader.new }
    ensures later { S.faults source.old ≤ S.faults source.new }
    ensures failed { result ≡ Next.Dry
        → HasRisen (S.told source.new) (S.faults source.old) (S.faults source.new) }
    ensures well { result ≢ Next.Dry → S.faults source.new ≡ S.faults source.old }
    ensures is_open { IsTrue (S.is_open source.new) }
    ensures mark { S.mark source.new ≡ S.mark source.old }
{
    'pieces: loop {
        match next_item(reader, feed) {
            Next::Header => return Next::Header,
            Next::Frame => return Next::Frame,
            Next::End => return Next::End,
            Next::Bad { line, reason } => return Next::Bad { line, reason },
            Next::Dry => {}
        }
        let Ok(()) = fetch(source, reader, feed) else {
            return Next::Dry;
        };
    }
}
