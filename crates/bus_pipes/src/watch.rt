//! The two pipes of LC: its commands, and the telemetry of the others. They are there where LC is.

ghost use Rattle.std.specs.Prelude.{◌≡◌, ◌≤◌, ◌==◌, ◌&&◌, ◌+◌, [], drop, length, nat_le, nat_lt, slice_get, IfOk, IfSome, is_some, true};
ghost use Rattle.bus_pipes.specs.Pipes.{depth_of, watched_pipe_of, is_there, offered, held_after};
ghost use Rattle.bus_pipes.specs.Watch.{commands_of, telemetry_of, IsWatchSized};
ghost use Rattle.bus_pipes.specs.declared.names.PipeName.TheVariants.{Lc, LcTlm};

use crate::batch::Batch;
use crate::names::{Offer, PIPE_DEPTH, PipeName, TELEMETRY_PIPE_DEPTH, Telemetry};
use crate::pipe::Pipe;
use fsw_outside::NoMemory;
use packet_forms::Packet;
use packet_forms::message_ids::{
    CS_BASELINE, CS_HOUSEKEEPING, HS_HOUSEKEEPING, LC_COMMAND, LC_HOUSEKEEPING, LC_REQUEST,
    MD_DWELL, MD_HOUSEKEEPING, MM_DUMP, MM_HOUSEKEEPING, MM_PEEK, SC_HOUSEKEEPING,
};
use std::alloc::Global;

/// How many dwell tables there are.
const DWELL_TABLES: u16 = 4;

/// The pipes of LC.
#[derive(Drop)]
pub(crate) struct WatchPipes {
    pub(crate) commands: Pipe,
    pub(crate) telemetry: Pipe,
}

impl WatchPipes {
    /// Two empty pipes, where they are to be there.
    pub(crate) fn open(alloc: Global, there: bool) -> Result<Option<WatchPipes>, NoMemory>
        ensures there { IfOk result (λ watch. is_some watch ≡ there) }
        ensures empty { IfOk result (λ watch. (commands_of watch ≡ [])
            × (telemetry_of watch ≡ [])) }
        ensures sized { IfOk result IsWatchSized }
    {
        if !there {
            return Ok(None);
        }
        let commands = Pipe::open(alloc, PIPE_DEPTH, PIPE_DEPTH)?;
        let telemetry = Pipe::open(alloc, TELEMETRY_PIPE_DEPTH, TELEMETRY_PIPE_DEPTH)?;
        Ok(Some(WatchPipes {
            commands,
            telemetry,
        }))
    }
}

/// Whether no command is held.
pub(crate) fn holds_no_command(watch: &Option<WatchPipes>) -> bool
    ensures { result ≡ (length (commands_of watch.now) == 0) }
{
    match watch {
        Some(pipes) => pipes.commands.is_empty(),
        None => true,
    }
}

/// Whether no telemetry is held.
pub(crate) fn holds_no_telemetry(watch: &Option<WatchPipes>) -> bool
    ensures { result ≡ (length (telemetry_of watch.now) == 0) }
{
    match watch {
        Some(pipes) => pipes.telemetry.is_empty(),
        None => true,
    }
}

/// Offers a command. It isn't offered where the pipe isn't there.
pub(crate) fn offer_command(watch: &mut Option<WatchPipes>, packet: &Packet) -> Offer
    requires there { is_some watch.old ≡ true }
    requires sized { IsWatchSized watch.old }
    ensures answer { result ≡ offered (record
        { packets = commands_of watch.old; depth = depth_of Lc; limit = depth_of Lc }) packet.now }
    ensures commands { commands_of watch.new ≡ held_after (commands_of watch.old) packet.now
        (offered (record {
          packets = commands_of watch.old;
          depth = depth_of Lc;
          limit = depth_of Lc;
        }) packet.now) }
    ensures telemetry { telemetry_of watch.new ≡ telemetry_of watch.old }
    ensures stays { is_some watch.new ≡ is_some watch.old }
    ensures sized { IsWatchSized watch.new }
{
    match watch {
        Some(pipes) => pipes.commands.offer(packet),
        None => Offer::Kept,
    }
}

/// Offers telemetry. It isn't offered where the pipe isn't there.
pub(crate) fn offer_telemetry(watch: &mut Option<WatchPipes>, packet: &Packet) -> Offer
    requires there { is_some watch.old ≡ true }
    requires sized { IsWatchSized watch.old }
    ensures answer { result ≡ offered (record
        { packets = telemetry_of watch.old; depth = depth_of LcTlm; limit = depth_of LcTlm })
        packet.now }
    ensures telemetry { telemetry_of watch.new
        ≡ held_after (telemetry_of watch.old) packet.now
        (offered (record {
          packets = telemetry_of watch.old;
          depth = depth_of LcTlm;
          limit
              = depth_of LcTlm;
        }) packet.now) }
    ensures commands { commands_of watch.new ≡ commands_of watch.old }
    ensures stays { is_some watch.new ≡ is_some watch.old }
    ensures sized { IsWatchSized watch.new }
{
    match watch {
        Some(pipes) => pipes.telemetry.offer(packet),
        None => Offer::Kept,
    }
}

/// Takes the first command.
pub(crate) fn take_command(watch: &mut Option<WatchPipes>) -> Option<Packet>
    requires { IsWatchSized watch.old }
    ensures first { result ≡ slice_get (commands_of watch.old) 0 }
    ensures commands { commands_of watch.new ≡ drop 1 (commands_of watch.old) }
    ensures telemetry { telemetry_of watch.new ≡ telemetry_of watch.old }
    ensures stays { is_some watch.new ≡ is_some watch.old }
    ensures sized { IsWatchSized watch.new }
{
    match watch {
        Some(pipes) => pipes.commands.take(),
        None => None,
    }
}

/// Takes the first packet of the telemetry.
pub(crate) fn take_first_telemetry(watch: &mut Option<WatchPipes>) -> Option<Packet>
    requires { IsWatchSized watch.old }
    ensures first { result ≡ slice_get (telemetry_of watch.old) 0 }
    ensures telemetry { telemetry_of watch.new ≡ drop 1 (telemetry_of watch.old) }
    ensures commands { commands_of watch.new ≡ commands_of watch.old }
    ensures stays { is_some watch.new ≡ is_some watch.old }
    ensures sized { IsWatchSized watch.new }
{
    match watch {
        Some(pipes) => pipes.telemetry.take(),
        None => None,
    }
}

/// Takes all commands.
pub(crate) fn take_commands(watch: &mut Option<WatchPipes>, batch: &mut Batch)
    requires { IsWatchSized watch.old }
    ensures taken { batch.new ≡ commands_of watch.old }
    ensures few { length batch.new ≤ depth_of Lc }
    ensures none { commands_of watch.new ≡ [] }
    ensures telemetry { telemetry_of watch.new ≡ telemetry_of watch.old }
    ensures stays { is_some watch.new ≡ is_some watch.old }
    ensures sized { IsWatchSized watch.new }
{
    match watch {
        Some(pipes) => pipes.commands.take_all(batch),
        None => batch.clear(),
    }
}

/// Takes all telemetry.
pub(crate) fn take_telemetry(watch: &mut Option<WatchPipes>, telemetry: &mut Telemetry)
    requires room { depth_of LcTlm ≤ telemetry.old.room }
    requires sized { IsWatchSized watch.old }
    ensures taken { telemetry.new.items ≡ telemetry_of watch.old }
    ensures few { length telemetry.new.items ≤ depth_of LcTlm }
    ensures room { telemetry.new.room ≡ telemetry.old.room }
    ensures none { telemetry_of watch.new ≡ [] }
    ensures commands { commands_of watch.new ≡ commands_of watch.old }
    ensures stays { is_some watch.new ≡ is_some watch.old }
    ensures sized { IsWatchSized watch.new }
{
    match watch {
        Some(pipes) => pipes.telemetry.take_telemetry(telemetry),
        None => telemetry.clear(),
    }
}

/// Empties both pipes.
pub(crate) fn clear(watch: &mut Option<WatchPipes>)
    requires { IsWatchSized watch.old }
    ensures commands { commands_of watch.new ≡ [] }
    ensures telemetry { telemetry_of watch.new ≡ [] }
    ensures stays { is_some watch.new ≡ is_some watch.old }
    ensures sized { IsWatchSized watch.new }
{
    let Some(pipes) = watch else {
        return;
    };
    pipes.commands.clear();
    pipes.telemetry.clear();
}

/// The pipe of LC to which packets of an id go, if any.
#[tactic(auto, unfolding(crate::specs::Pipes::watched_pipe_of))]
pub(crate) fn watched_pipe_of(id: u16) -> Option<PipeName>
    ensures pipe { result ≡ watched_pipe_of id }
    ensures there { IfSome result (λ pipe. is_there pipe true ≡ true) }
{
    match id {
        LC_COMMAND | LC_REQUEST => Some(PipeName::Lc),
        HS_HOUSEKEEPING
        | CS_HOUSEKEEPING
        | SC_HOUSEKEEPING
        | MM_HOUSEKEEPING
        | MD_HOUSEKEEPING
        | LC_HOUSEKEEPING
        | CS_BASELINE
        | MM_PEEK
        | MM_DUMP => Some(PipeName::LcTlm),
        _ => {
            if is_dwell(id) {
                Some(PipeName::LcTlm)
            } else {
                None
            }
        }
    }
}

/// Whether telemetry of an id is that of a dwell table.
fn is_dwell(id: u16) -> bool
    ensures { result ≡ (nat_lt MD_DWELL id && nat_le id (MD_DWELL + DWELL_TABLES)) }
{
    MD_DWELL < id && id <= MD_DWELL + DWELL_TABLES
}
