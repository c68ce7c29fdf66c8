//! Rows of a store: what is put and given up, and shelves that fail.
use super::*;

fn store_on<S: Shelf + Drop>(alloc: Global, shelf: S) -> Result<Store<S>, Fail> {
    match Store::start(alloc, shelf) {
        Ok(store) => Ok(store),
        Err(refused) => {
            drop(refused);
            Err(Fail::from("no store"))
        }
    }
}

type Shelved = Store<MemoryShelf>;

/// An empty store in memory, whose calls of these numbers fail.
fn store_that_fails(alloc: Global, fails: &[u64]) -> Result<Shelved, Fail> {
    store_on(alloc, memory(alloc, fails)?)
}

/// Whether a put was told so.
fn is_put(told: Result<Put, StoreFault>, wanted: Put) -> bool {
    match told {
        Ok(put) => put == wanted,
        Err(_) => false,
    }
}

/// Whether a call of a store was refused with this fault.
fn is_refused(told: Result<Put, StoreFault>, wanted: StoreFault) -> bool {
    match told {
        Ok(_) => false,
        Err(fault) => fault == wanted,
    }
}

/// Whether these bytes were given.
fn is_given(told: &Result<Option<Bytes>, StoreFault>, wanted: &[u8]) -> bool {
    match told {
        Ok(Some(bytes)) => bytes.slice() == wanted,
        Ok(None) => false,
        Err(_) => false,
    }
}

/// Whether a block is new, then the same, and given.
fn keeps(store: &mut Shelved, block: &Key) -> bool {
    store.has(*block).is_none()
        && is_put(store.put(*block, b"abc"), Put::New)
        && is_put(store.put(*block, b"abc"), Put::Same)
        && store.has(*block) == Some(3)
        && is_given(&store.get(*block), b"abc")
}

/// What a new store shows.
#[derive(Clone, Copy)]
enum Row {
    /// A block that is given back.
    Block,
    /// The first text of a commit.
    First,
    /// A put that fails once. A start over no object makes three calls.
    FailingPut,
}

/// Which calls of its shelf fail.
fn fails(row: Row) -> &'static [u64] {
    match row {
        Row::FailingPut => &[3],
        _ => &[],
    }
}

fn goes(store: &mut Shelved, row: Row) -> bool {
    match row {
        Row::Block => keeps(store, &key(Kind::Block, b"abc")),
        Row::First => keeps_the_first(store, &key(Kind::Commit, b"one")),
        Row::FailingPut => fails_once(store, &key(Kind::Block, b"abc")),
    }
}

/// Whether a new store shows it.
fn shows(alloc: Global, row: Row) -> Result<bool, Fail> {
    let mut store = store_that_fails(alloc, fails(row))?;
    let shown = goes(&mut store, row);
    drop(store);
    Ok(shown)
}

#[test]
fn a_block_that_was_put_is_given_back(rt: HostRuntime) -> Result<(), Fail> {
    assert!(rt; shows(rt.alloc(), Row::Block)?);
    Ok(())
}

/// Whether a commit is stored at its first text alone, and none under forty zeros.
fn keeps_the_first(store: &mut Shelved, commit: &Key) -> bool {
    let nil = Key {
        kind: Kind::Commit,
        id: ObjId::NIL,
    };
    is_put(store.put(*commit, b"one"), Put::New)
        && is_refused(
            store.put(*commit, b"two!"),
            StoreFault::Taken(ObjId::of(b"one")),
        )
        && store.has(*commit) == Some(3)
        && is_refused(store.put(nil, b"one"), StoreFault::Taken(ObjId::NIL))
}

#[test]
fn the_first_text_of_a_commit_stays_and_nothing_is_stored_under_nil(
    rt: HostRuntime,
) -> Result<(), Fail> {
    assert!(rt; shows(rt.alloc(), Row::First)?);
    Ok(())
}

/// Puts a commit and a block, the other way round.
fn takes_two(store: &mut Shelved, commit: &Key, block: &Key) -> bool {
    is_put(store.put(*block, b"abc"), Put::New) && is_put(store.put(*commit, b"one"), Put::New)
}

fn is_in_order(store: &Shelved, commit: &Key, block: &Key) -> bool {
    store.count() == 2
        && store.after(None) == Some(*commit)
        && store.after(Some(*commit)) == Some(*block)
        && store.after(Some(*block)).is_none()
}

fn is_alone(store: &Shelved, block: &Key) -> bool {
    store.count() == 1 && store.after(None) == Some(*block)
}

/// Whether a commit that is there is given up.
fn gives_up(store: &mut Shelved, commit: &Key) -> bool {
    if store.has(*commit).is_none() {
        return false;
    }
    store.give_up(*commit).is_ok()
}

/// Whether the shelf of a store has the slot of this object empty.
fn ends_without(store: Shelved, commit: &Key) -> bool {
    let mut shelf = store.end();
    let is_empty = is_empty(&shelf.fetch(Slot::Object(*commit)));
    drop(shelf);
    is_empty
}

/// Whether keys come in their order until one is given up.
fn comes_in_order(store: &mut Shelved, commit: &Key, block: &Key) -> bool {
    takes_two(store, commit, block)
        && is_in_order(store, commit, block)
        && gives_up(store, commit)
        && is_alone(store, block)
}

/// Whether that is so in a new store, and whether the slot of the one is empty then.
fn gives_up_one(alloc: Global, commit: &Key, block: &Key) -> Result<(bool, bool), Fail> {
    let mut store = store_that_fails(alloc, &[])?;
    let in_order = comes_in_order(&mut store, commit, block);
    Ok((in_order, ends_without(store, commit)))
}

#[test]
fn keys_come_in_order_until_they_are_given_up(rt: HostRuntime) -> Result<(), Fail> {
    let commit = &key(Kind::Commit, b"one");
    let block = &key(Kind::Block, b"abc");
    let (in_order, without) = gives_up_one(rt.alloc(), commit, block)?;
    assert!(rt; in_order);
    assert!(rt; without);
    Ok(())
}

/// Whether no text was noted, and one is now.
fn notes(store: &mut Shelved) -> bool {
    matches!(store.noted(), Ok(None)) && store.note(b"state").is_ok()
}

fn is_noted(store: &mut Shelved) -> bool {
    is_given(&store.noted(), b"state") && store.count() == 0
}

/// Whether a text is noted by a new store, and whether it is there when that starts again.
fn notes_for_later(alloc: Global) -> Result<(bool, bool), Fail> {
    let mut store = store_that_fails(alloc, &[])?;
    let notes = notes(&mut store);
    let mut again = store_on(alloc, store.end())?;
    let is_noted = is_noted(&mut again);
    drop(again);
    Ok((notes, is_noted))
}

#[test]
fn a_noted_text_is_there_when_the_store_starts_again(rt: HostRuntime) -> Result<(), Fail> {
    let (notes, is_noted) = notes_for_later(rt.alloc())?;
    assert!(rt; notes);
    assert!(rt; is_noted);
    Ok(())
}

/// Whether a put fails, and the next one of the same does.
fn fails_once(store: &mut Shelved, block: &Key) -> bool {
    store.faults() == 0
        && is_refused(store.put(*block, b"abc"), StoreFault::Shelf)
        && store.faults() == 1
        && store.has(*block).is_none()
        && is_put(store.put(*block, b"abc"), Put::New)
}

#[test]
fn a_failing_put_stores_nothing_and_may_be_tried_again(rt: HostRuntime) -> Result<(), Fail> {
    assert!(rt; shows(rt.alloc(), Row::FailingPut)?);
    Ok(())
}

/// Puts three objects on a shelf, with three calls.
fn takes_three(shelf: &mut MemoryShelf) -> bool {
    shelf
        .put(Slot::Object(key(Kind::Block, b"a")), b"a")
        .is_ok()
        && shelf.put(Slot::Object(key(Kind::Fs, b"b")), b"b").is_ok()
        && shelf
            .put(Slot::Object(key(Kind::Block, b"c")), b"c")
            .is_ok()
}

/// Whether a start over three objects is well; else the shelf has one fault.
fn starts(shelf: MemoryShelf, alloc: Global) -> Option<bool> {
    match Store::start(alloc, shelf) {
        Ok(store) => {
            let count = store.count();
            drop(store);
            if count == 3 { Some(true) } else { None }
        }
        Err((shelf, fault)) => {
            let faults = shelf.faults();
            drop(shelf);
            if fault == StoreFault::Shelf && faults == 1 {
                Some(false)
            } else {
                None
            }
        }
    }
}

/// The same where the call with this number fails.
fn starts_failing(alloc: Global, failing: u64) -> Result<Option<bool>, AllocError> {
    let mut shelf = memory(alloc, &[failing])?;
    if !takes_three(&mut shelf) {
        drop(shelf);
        return Ok(None);
    }
    Ok(starts(shelf, alloc))
}

// Three puts, then the start's calls 3 to 8.
#[test]
fn a_start_makes_one_call_an_object_and_three_more(rt: HostRuntime) -> Result<(), AllocError> {
    for (failing, is_started) in [(3, false), (8, false), (9, true)] {
        assert!(rt;
            starts_failing(rt.alloc(), failing)? == Some(is_started),
            "at {failing}"
        );
    }
    Ok(())
}
