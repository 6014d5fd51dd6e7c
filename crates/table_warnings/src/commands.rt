//! Commands of sequences that say something of their own sequence, and seconds that have too many.
ghost use Rattle.std.specs.Prelude.{◌≡◌, ◌<◌, ◌==◌, length, count_by};
ghost use Rattle.table_warnings.specs.Commands.{starts_relative, ends_absolute, is_ninth};

use packet_forms::Packet;
use packet_forms::message_ids::SC_COMMAND;

/// How many commands leave in a wakeup at most.
const TURNS: usize = 8;

/// Whether a packet starts relative sequence n.
#[tactic(auto, unfolding(crate::specs::Commands::starts_relative))]
pub(crate) fn starts_relative(n: u8, packet: &Packet) -> bool
    ensures { result ≡ starts_relative n packet.now }
{
    packet.mid() == SC_COMMAND && packet.code() == 4 && packet.payload() == [0, n].as_slice()
}

/// Whether a packet stops the absolute sequence that runs, or switches to the other one.
#[tactic(auto, unfolding(crate::specs::Commands::ends_absolute))]
pub(crate) fn ends_absolute(packet: &Packet) -> bool
    ensures { result ≡ ends_absolute packet.now }
{
    packet.mid() == SC_COMMAND && (packet.code() == 3 || packet.code() == 8)
}

/// How many of these times are this one.
fn count_times(times: &[u32], time: u32) -> usize
    ensures { result ≡ count_by (λ t. t == time) times.now }
{
    times.iter().filter(|t| **t == time).count()
}

/// Whether a command is the ninth of its second.
#[tactic(auto, unfolding(crate::specs::Commands::is_ninth))]
pub(crate) fn is_ninth(times: &[u32], k: usize) -> bool
    requires { k < length times.now }
    ensures { result ≡ is_ninth times.now k }
{
    count_times(&times[..k], times[k]) == TURNS
}
