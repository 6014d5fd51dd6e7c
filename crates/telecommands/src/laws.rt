//! Laws of the definitions, as contracts of functions that do nothing.
ghost use Rattle.std.specs.Prelude.{◌≡◌, ◌<◌, ℕ, List, Option, None, true, map, Ok};
ghost use Rattle.std.specs.List.{AllByRecursion};
ghost use Rattle.packet_forms.specs.Faults.{fault_of};
ghost use Rattle.row_forms.specs.Words.{words};
ghost use Rattle.telecommands.specs.declared.command.Command.{Command};
ghost use Rattle.telecommands.specs.Dictionary.{placed, dictionary};
ghost use Rattle.telecommands.specs.Examples.{hs_examples, mm_examples, md_examples, cs_examples, sc_examples, lc_examples};
ghost use Rattle.telecommands.specs.Commands.{are_good, are_distinct, command_said, command_shown};

/// The words that a packet is shown by say it: whatever the packet, the commands, the epoch and the number of the first word are.
pub fn commands_read_back()
    ensures { (epoch : Option ℕ) (n : ℕ) (cs : List Command) (packet : List ℕ) → are_good cs ≡ true
        → are_distinct cs ≡ true → AllByRecursion (λ b. b < 256) packet → fault_of packet ≡ None
        → command_said epoch n cs (words (command_shown cs packet)) ≡ Ok packet }
{}

/// Commands whose texts lie elsewhere say the words as these commands do: so what holds of the dictionary holds of `commands`.
pub fn places_say_nothing()
    ensures { (epoch : Option ℕ) (n : ℕ) (cs : List Command) (ws : List (List ℕ))
        → command_said epoch n (map placed cs) ws ≡ command_said epoch n cs ws }
{}

/// The examples of docs/COMMANDS.md for Health and Safety: their words say their bytes, and their bytes are shown as their words.
pub fn hs_commands_in_words()
    ensures said { map (λ e. command_said None 1 dictionary (words e.text)) hs_examples
        ≡ map (λ e. Ok e.packet) hs_examples }
    ensures shown { map (λ e. command_shown dictionary e.packet) hs_examples
        ≡ map (λ e. e.text) hs_examples }
{}

/// The examples of docs/COMMANDS.md for Memory Manager: their words say their bytes, and their bytes are shown as their words.
pub fn mm_commands_in_words()
    ensures said { map (λ e. command_said None 1 dictionary (words e.text)) mm_examples
        ≡ map (λ e. Ok e.packet) mm_examples }
    ensures shown { map (λ e. command_shown dictionary e.packet) mm_examples
        ≡ map (λ e. e.text) mm_examples }
{}

/// The examples of docs/COMMANDS.md for Memory Dwell: their words say their bytes, and their bytes are shown as their words.
pub fn md_commands_in_words()
    ensures said { map (λ e. command_said None 1 dictionary (words e.text)) md_examples
        ≡ map (λ e. Ok e.packet) md_examples }
    ensures shown { map (λ e. command_shown dictionary e.packet) md_examples
        ≡ map (λ e. e.text) md_examples }
{}

/// The examples of docs/COMMANDS.md for Checksum: their words say their bytes, and their bytes are shown as their words.
pub fn cs_commands_in_words()
    ensures said { map (λ e. command_said None 1 dictionary (words e.text)) cs_examples
        ≡ map (λ e. Ok e.packet) cs_examples }
    ensures shown { map (λ e. command_shown dictionary e.packet) cs_examples
        ≡ map (λ e. e.text) cs_examples }
{}

/// The examples of docs/COMMANDS.md for Stored Command: their words say their bytes, and their bytes are shown as their words.
pub fn sc_commands_in_words()
    ensures said { map (λ e. command_said None 1 dictionary (words e.text)) sc_examples
        ≡ map (λ e. Ok e.packet) sc_examples }
    ensures shown { map (λ e. command_shown dictionary e.packet) sc_examples
        ≡ map (λ e. e.text) sc_examples }
{}

/// The examples of docs/COMMANDS.md for Limit Checker: their words say their bytes, and their bytes are shown as their words.
pub fn lc_commands_in_words()
    ensures said { map (λ e. command_said None 1 dictionary (words e.text)) lc_examples
        ≡ map (λ e. Ok e.packet) lc_examples }
    ensures shown { map (λ e. command_shown dictionary e.packet) lc_examples
        ≡ map (λ e. e.text) lc_examples }
{}
