//! What holds of words and commands, for all of them: theorems on the definitions, with no code.
ghost use Rattle.std.specs.Prelude.{◌≡◌, ◌≢◌, ℕ, List, Some};
ghost use Rattle.server_words.specs.CommandLine.{command_of, is_memory, names_memory, location_in};
ghost use Rattle.server_words.specs.Spelling.{IsCommand, words_of};
ghost use Rattle.server_words.specs.declared.command.Location.{Location};

use crate::command::Command;

/// No two lines of words are one command: what is read as a command is its spelling, to the byte.
pub fn a_command_is_spelled_in_one_way()
    ensures { (words : List (List ℕ)) → command_of words ≢ Command.Usage → words ≡ words_of (command_of words) }
{}

/// Every command can be asked for: its spelling is read as it.
pub fn a_command_is_read_from_its_spelling()
    ensures { (command : Command) → command ≢ Command.Usage → IsCommand command → command_of (words_of command) ≡ command }
{}

/// A command keeps its libraries in memory exactly where its second word says so: whoever looks at that word alone takes
/// the location that `read_command` reads.
pub fn a_command_is_in_memory_where_its_words_say_so()
    ensures { (words : List (List ℕ)) → (location : Location) → location_in (command_of words) ≡ Some location → names_memory words ≡ is_memory location }
{}
