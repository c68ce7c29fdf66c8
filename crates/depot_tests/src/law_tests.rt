//! The theorems on stops, each at a shelf in memory: a crate above can name them.
use object_store::MemoryShelf;
use std::test::Fail;
use stop_laws::laws;

#[test]
fn each_theorem_on_stops_is_had_at_a_shelf_in_memory(_rt: HostRuntime) -> Result<(), Fail> {
    laws::as_each_call_returns_the_shelf_stands_for_the_library::<MemoryShelf>();
    laws::after_any_calls_the_shelf_stands_for_the_library_or_for_what_was_refused::<MemoryShelf>();
    laws::a_kept_commit_is_kept_in_whatever_the_shelf_stands_for::<MemoryShelf>();
    laws::an_answered_update_keeps_its_commit_in_a_settled_text::<MemoryShelf>();
    laws::after_a_history_the_shelf_stands_for_the_library_or_for_what_was_refused::<MemoryShelf>();
    laws::a_text_is_open_to_what_a_change_was_refused::<MemoryShelf>();
    laws::a_kept_commit_is_kept_through_a_history::<MemoryShelf>();
    laws::a_commit_that_a_change_kept_stays_kept::<MemoryShelf>();
    laws::while_nothing_fails_what_lies_there_is_the_librarys::<MemoryShelf>();
    laws::a_shelf_that_stands_for_a_library_is_opened_as_it::<MemoryShelf>();
    laws::a_refused_making_leaves_no_other_library::<MemoryShelf>();
    Ok(())
}
