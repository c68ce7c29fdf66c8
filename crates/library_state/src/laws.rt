//! What holds of writing and reading state texts, for all states: theorems on the definitions, with no code.
ghost use Rattle.std.specs.Prelude.{◌≡◌, ◌^◌, Ok, pos};
ghost use Rattle.library_state.specs.ProperState.{IsProper};
ghost use Rattle.library_state.specs.StateSpelling.{text_of};
ghost use Rattle.library_state.specs.StateText.{state_of};
ghost use Rattle.library_state.specs.TypedState.{IsTyped};
ghost use Rattle.library_state.specs.declared.state.LibState.{LibState};
ghost use Rattle.library_state.specs.declared.state.TheConstants.{MAX_STATE_NAME, MAX_TOKENS, MAX_DAYS, LAST};

/// A state has names of at most 255 bytes, 1,000 tokens, history of 36,500 days, and counts up to 2^63.
pub fn the_limits_of_a_state()
    ensures { (MAX_STATE_NAME ≡ 255) × (MAX_TOKENS ≡ 1000) × (MAX_DAYS ≡ pos 36500) × (LAST ≡ 2 ^ 63) }
{}

/// The text of a state that is typed and proper is read as that state.
pub fn a_state_is_read_back_from_its_text()
    ensures { (state : LibState) → IsTyped state → IsProper state → state_of (text_of state) ≡ Ok state }
{}
