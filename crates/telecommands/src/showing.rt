//! Packets that are shown as telecommands.
ghost use Rattle.std.specs.Prelude.{◌≡◌, ◌++◌, true, OnOk, IfSome};
ghost use Rattle.telecommands.specs.Commands.{is_good, are_good, shows, showing, command_shown};

use crate::command::Command;
use packet_forms::{Packet, command};
use row_forms::{is_row, push_hex, show_row};
use std::alloc::AllocError;

/// Appends the words of a packet: the name of the first command that says it, and its row, or `packet=` and its bytes in hexadecimal
/// digits where no command says it.
pub fn show_command(
    commands: &[Command],
    packet: &Packet,
    out: &mut Vec<u8>,
) -> Result<(), AllocError>
    requires { are_good commands.now ≡ true }
    ensures { OnOk result (out.new.items ≡ out.old.items ++ command_shown commands.now packet.now) }
{
    match find_showing(commands, packet) {
        Some(command) => {
            out.extend_from_slice(command.name.as_bytes())?;
            show_row(command.fields, packet.payload(), out)
        }
        None => {
            out.extend_from_slice(b"packet=")?;
            push_hex(packet.bytes(), out)
        }
    }
}

/// The first command whose words say a packet.
fn find_showing(commands: &[Command], packet: &Packet) -> Option<Command>
    requires { are_good commands.now ≡ true }
    ensures value { result ≡ showing commands.now packet.now }
    ensures shows { IfSome result (λ c. shows packet.now c ≡ true) }
{
    for command in commands {
        if shows(command, packet) {
            return Some(*command);
        }
    }
    None
}

/// Whether a command's words say this packet.
#[tactic(auto, unfolding(crate::specs::Commands::shows))]
fn shows(row: &Command, packet: &Packet) -> bool
    requires { is_good row.now ≡ true }
    ensures { result ≡ shows packet.now row.now }
{
    let bytes = packet.bytes();
    let payload = packet.payload();
    packet.mid() == row.id
        && packet.code() == row.code
        && is_row(row.fields, payload)
        && command(row.id, row.code, payload).bytes() == bytes
}
