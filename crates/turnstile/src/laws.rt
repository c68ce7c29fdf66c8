//! What holds of a turnstile at any moment: one theorem each, over every state that the rule allows.
ghost use Rattle.turnstile.specs.Laws.{Always, HasOneTurn, KnowsBeginning, HasPlacesOnce, HasOneBook, HasEachPlace, StandsWhereFree, HasSeenAll, HasDrawnAll, DrawsWithinMost};

use crate::story::Story;

/// At most one participant has the turn.
pub fn at_most_one_participant_has_the_turn<V: Story>()
    ensures { Always V.stands (λ k s r. HasOneTurn s.views) }
{}

/// Whenever the turn is free, the value stands for the history.
pub fn the_value_stands_for_the_history_whenever_the_turn_is_free<V: Story>()
    ensures { Always V.stands (StandsWhereFree V.stands) }
{}

/// What a participant knows begins the history, and is all of it while it has the turn.
pub fn what_is_known_begins_the_history<V: Story>()
    ensures { Always V.stands (λ k s r. KnowsBeginning r.history s.views) }
{}

/// Each entry stands in exactly one book, once.
pub fn each_entry_is_in_one_book<V: Story>()
    ensures once { Always V.stands (λ k s r. HasPlacesOnce r.history s.views) }
    ensures apart { Always V.stands (λ k s r. HasOneBook s.views) }
    ensures found { Always V.stands (λ k s r. HasEachPlace r.history s.views) }
{}

/// Who stands for all passes has seen all of the history, and its book has each place of it.
///
/// So what `close` says of the known list and the book of its pass, it says of the whole history.
pub fn who_stands_for_all_has_seen_all<V: Story>()
    ensures { Always V.stands (HasSeenAll V.stands) }
{}

/// Who stands for all passes drew all tickets, and read of no number beyond them.
///
/// So what `join` and `close` say of the numbers of their pass, they say of all turns that were taken.
pub fn who_stands_for_all_has_drawn_all<V: Story>()
    ensures { Always V.stands (HasDrawnAll V.stands) }
{}

/// The tickets drawn are those from the first on, and never more than `TURNS`.
pub fn no_more_than_all_turns_are_drawn<V: Story>()
    ensures { Always V.stands (DrawsWithinMost V.stands) }
{}
