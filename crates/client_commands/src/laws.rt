//! What holds of the commands: a theorem on the definitions, with no code.
ghost use Rattle.std.specs.Prelude.{ℕ, List};
ghost use Rattle.client_words.specs.declared.fault.Fault.{Fault};
ghost use Rattle.remote_calls.specs.Exchange.{link_view};
ghost use Rattle.client_commands.specs.Keeping.{RoseFor};
ghost use Rattle.client_commands.specs.Starts.{StartTells, StartsSo};
ghost use Rattle.client_commands.specs.Views.{DeskView, SinkView, dial_view};

use client_desk::Desk;
use library_state::Clock;

/// A fault of a folder that a line of `start` tells comes only where the desk's count of folder faults rose since the command began, and
/// one of a link only where that of its dials did.
pub fn a_fault_that_start_tells_comes_with_a_count_that_rose_in_it<D: Desk, C: Clock>()
    ensures { (clock : C) (conf : List ℕ) (turns : ℕ) (old new : DeskView D.N) (before after : SinkView) (status : ℕ) (fault : Fault)
        → (starts : StartsSo (dial_view (link_view D.N.L.left D.N.L.taken D.N.L.given D.N.L.asked D.N.L.faults) D.N.back D.N.dialled) (C.shows clock) conf turns old new before after status)
        → StartTells conf turns old new before after status fault starts → RoseFor old new fault }
{}
