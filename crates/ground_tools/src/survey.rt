//! What a log holds in all: how much of each application, and what an operator looks at first.

ghost use Rattle.std.specs.Prelude.{◌≡◌, ◌<◌, ◌≤◌, ◌++◌, ◌∷◌, [], ℕ, List, length, take, get_or, IfOk, IfSome, OnOk};
ghost use Rattle.packet_log.specs.Lines.{pipe_text};
ghost use Rattle.ground_tools.specs.Noted.{error_of, item_noted, head_in};
ghost use Rattle.ground_tools.specs.Surveys.{Surveys, Notes};

use crate::application::{application_of, event_head};
use bus_pipes::PipeName;
use log_lines::{Answer, LineItem, LogLine, LogReader};
use packet_forms::{Name, Packet, behind};
use std::alloc::{AllocError, Global};

/// The type of an event that is an error.
const ERROR: u16 = 3;

/// What an operator looks at first.
#[derive(Clone, Copy, Debug, PartialEq, Eq)]
pub enum Notable {
    /// An event of type 3, an error: who tells it, and its number.
    Error { application: Name, number: u16 },
    /// A packet that a pipe dropped: `full` for its depth, else for the limit of the packet's id.
    Drop { pipe: PipeName, full: bool },
    /// Health and Safety asks for a processor reset.
    Reset,
    /// It asks to restart an application.
    Restart(Name),
    /// It asks to delete an application.
    Delete(Name),
}

/// How often something stands in a log.
#[derive(Clone, Copy, Debug)]
pub struct NotableCount {
    pub what: Notable,
    pub count: u64,
}

/// How much of an application stands in a log; `name` is none for packets that belong to none.
#[derive(Clone, Copy, Debug)]
pub struct Sender {
    pub name: Option<Name>,
    /// Telemetry but for events.
    pub packets: u64,
    pub events: u64,
    /// Commands for it that sequences and message actions sent.
    pub commands: u64,
}

/// What a log holds in all. Its memory grows with the number of different things alone.
#[derive(Drop)]
pub struct Survey {
    reader: LogReader,
    // the line that was read last: a packet is read into its place
    line: LogLine,
    lines: u64,
    strange: u64,
    senders: Vec<Sender>,
    notables: Vec<NotableCount>,
}

impl Survey {
    /// The survey of a log of which nothing came yet.
    pub fn new(alloc: Global) -> Survey
        ensures { Surveys result [] }
    {
        Survey {
            reader: LogReader::new(),
            line: LogLine {
                frame: 0,
                item: LineItem::Reset,
            },
            lines: 0,
            strange: 0,
            senders: Vec::new(alloc),
            notables: Vec::new(alloc),
        }
    }

    /// How many lines of a log there were.
    pub fn lines(&self) -> u64 {
        self.lines
    }

    /// How many lines there were that are none of a log's.
    pub fn strange(&self) -> u64 {
        self.strange
    }

    /// The applications, in the order in which they came.
    pub fn senders(&self) -> &[Sender] {
        self.senders.as_slice()
    }

    /// What an operator looks at first, in the order in which it came.
    pub fn notables(&self) -> &[NotableCount]
        ensures { result.now ≡ self.now.notables.items }
    {
        self.notables.as_slice()
    }

    /// Takes the next piece of the log in, of any length.
    pub fn take(&mut self, piece: &[u8]) -> Result<(), AllocError>
        ensures { (log : List ℕ) → Surveys self.old log
            → OnOk result (Surveys self.new (log ++ piece.now)) }
    {
        let mut taken = 0;
        'lines: while taken < piece.len() {
            let step = self.take_line(behind(piece, taken))?;
            taken += step;
        }
        Ok(())
    }

    /// Takes a first part of a piece in, as far as the end of a line, and answers how much it is.
    fn take_line(&mut self, piece: &[u8]) -> Result<usize, AllocError>
        requires { 0 < length piece.now }
        ensures surveys { (log : List ℕ) → Surveys self.old log
            → IfOk result (λ taken. Surveys self.new (log ++ take taken piece.now)) }
        ensures taken { IfOk result (λ taken. taken ≤ length piece.now) }
        ensures some { IfOk result (λ taken. 0 < taken) }
    {
        let fed = self.reader.feed(piece, &mut self.line);
        match fed.answer {
            Answer::More => Ok(fed.taken),
            Answer::Line => {
                let line = self.line;
                self.note(&line)?;
                Ok(fed.taken)
            }
            Answer::Fault(_) => {
                self.strange = self.strange.saturating_add(1);
                Ok(fed.taken)
            }
        }
    }

    /// Counts a line.
    fn note(&mut self, line: &LogLine) -> Result<(), AllocError>
        ensures { OnOk result (Notes self.old self.new (item_noted line.now.item)) }
    {
        self.lines = self.lines.saturating_add(1);
        match &line.item {
            LineItem::Packet(packet) => self.note_packet(packet),
            LineItem::Drop(lost) => self.note_notable(Notable::Drop {
                pipe: lost.pipe,
                full: lost.full,
            }),
            LineItem::Reset => self.note_notable(Notable::Reset),
            LineItem::Restart(name) => self.note_notable(Notable::Restart(*name)),
            LineItem::Delete(name) => self.note_notable(Notable::Delete(*name)),
        }
    }

    /// Counts a packet that was sent.
    fn note_packet(&mut self, packet: &Packet) -> Result<(), AllocError>
        ensures { OnOk result (Notes self.old self.new (error_of (head_in packet.now))) }
    {
        let head = event_head(packet);
        let one = Sender {
            name: application_of(packet),
            packets: u64::from(head.is_none() && !packet.is_command()),
            events: u64::from(head.is_some()),
            commands: u64::from(packet.is_command()),
        };
        add_sender(&mut self.senders, one)?;
        let Some(event) = head else {
            return Ok(());
        };
        if event.kind != ERROR {
            return Ok(());
        }
        self.note_notable(Notable::Error {
            application: event.application,
            number: event.number,
        })
    }

    /// Counts something that an operator looks at first.
    fn note_notable(&mut self, what: Notable) -> Result<(), AllocError>
        ensures { OnOk result (Notes self.old self.new (what ∷ [])) }
    {
        if let Some(place) = place_of(self.notables.as_slice(), &what) {
            let count = self.notables[place].count.saturating_add(1);
            self.notables[place] = NotableCount { what, count };
            return Ok(());
        }
        self.notables.push(NotableCount { what, count: 1 })?;
        Ok(())
    }
}

/// The place of something among what is counted.
fn place_of(notables: &[NotableCount], what: &Notable) -> Option<usize>
    ensures { IfSome result (λ place. (place < length notables.now)
        × ((other : NotableCount) → (get_or notables.now place other).what ≡ what.now)) }
{
    for place in 0..notables.len() {
        if notables[place].what == *what {
            return Some(place);
        }
    }
    None
}

/// Adds to an application's counts.
fn add_sender(senders: &mut Vec<Sender>, one: Sender) -> Result<(), AllocError> {
    for known in senders.iter_mut() {
        if known.name == one.name {
            known.packets = known.packets.saturating_add(one.packets);
            known.events = known.events.saturating_add(one.events);
            known.commands = known.commands.saturating_add(one.commands);
            return Ok(());
        }
    }
    senders.push(one)?;
    Ok(())
}

/// The name of a pipe, as logs have it.
pub fn pipe_name(pipe: PipeName) -> &'static str
    ensures { result.now ≡ pipe_text pipe }
{
    match pipe {
        PipeName::Hs => "HS",
        PipeName::HsEv => "HS.EV",
        PipeName::Cs => "CS",
        PipeName::Sc => "SC",
        PipeName::Mm => "MM",
        PipeName::Md => "MD",
        PipeName::Lc => "LC",
        PipeName::LcTlm => "LC.TLM",
    }
}
