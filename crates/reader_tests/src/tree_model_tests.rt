//! Names, orders of paths and tables with ample memory.
use std::alloc::{AllocError, Global};
use std::cmp::Ordering;
use tree_model::{Name, NameFault, Path, PathTable};

fn path(alloc: Global, names: &[&str]) -> Result<Path, NameFault> {
    let mut path = Path::root(alloc);
    for name in names {
        let name = Name::read(alloc, name)?;
        path = path.child(alloc, &name)?;
    }
    Ok(path)
}

/// Whether this is the fault of a name, as it is printed; no text where the name is good.
fn has_fault(alloc: Global, text: &str, wanted: &str) -> Result<bool, AllocError> {
    match Name::check(text) {
        Err(fault) => Ok(format!(in alloc; "{fault:?}")?.as_bytes() == wanted.as_bytes()),
        Ok(()) => Ok(wanted.is_empty()),
    }
}

fn is_text(name: &Name, text: &str) -> bool {
    name.as_str() == text && name.bytes() == text.as_bytes()
}

/// Whether a name is refused with this fault, or read as it is where there is none.
fn is_read(alloc: Global, text: &str, wanted: &str) -> Result<bool, AllocError> {
    match Name::read(alloc, text) {
        Ok(name) => Ok(wanted.is_empty() && is_text(&name, text)),
        Err(NameFault::Bad(told)) => {
            Ok(format!(in alloc; "{told:?}")?.as_bytes() == wanted.as_bytes())
        }
        Err(NameFault::NoMemory) => Err(AllocError),
    }
}

fn is_told(alloc: Global, text: &str, wanted: &str) -> Result<bool, AllocError> {
    Ok(has_fault(alloc, text, wanted)? && is_read(alloc, text, wanted)?)
}

/// The same for the texts that are so many of these.
fn is_told_of(alloc: Global, part: &str, count: usize, wanted: &str) -> Result<bool, AllocError> {
    let text = part.repeat(alloc, count)?;
    let told = is_told(alloc, text.as_str(), wanted);
    drop(text);
    told
}

/// What stands in a name, how often, and its fault.
const FAULTS: &[(&str, usize, &str)] = &[
    ("a", 1, ""),
    ("", 1, "Empty"),
    ("a/b", 1, "Forbidden(1)"),
    ("../", 1, "Forbidden(2)"),
    ("\0/", 1, "Forbidden(0)"),
    (".", 1, "Dots"),
    (".", 2, "Dots"),
    (".", 3, ""),
    ("a", 255, ""),
    ("a", 256, "TooLong(256)"),
    ("/", 256, "TooLong(256)"),
];

/// Whether each of these has its fault.
fn are_told(alloc: Global) -> Result<bool, AllocError> {
    for place in 0..FAULTS.len() {
        let (part, count, wanted) = FAULTS[place];
        if !is_told_of(alloc, part, count, wanted)? {
            return Ok(false);
        }
    }
    Ok(true)
}

#[test]
fn the_first_fault_of_a_name_is_told(rt: HostRuntime) -> Result<(), AllocError> {
    assert!(rt; are_told(rt.alloc())?);
    Ok(())
}

/// Whether a path has this text and so many names.
fn is_path(alloc: Global, path: &Path, text: &str, count: usize) -> Result<bool, AllocError> {
    Ok(path.text(alloc)?.slice() == text && path.names().len() == count)
}

#[test]
fn a_path_has_the_text_of_its_names(rt: HostRuntime) -> Result<(), NameFault> {
    let alloc = rt.alloc();
    assert!(rt; is_path(alloc, &Path::root(alloc), "", 0)?);
    assert!(rt; is_path(alloc, &path(alloc, &["a", "b"])?, "a/b", 2)?);
    Ok(())
}

fn is_copy(path: &Path, copy: &Path) -> bool {
    path.cmp(copy) == Ordering::Equal
}

/// Whether the path of the first names is the same as its copy and stands before that of the second.
fn is_before(alloc: Global, first: &[&str], second: &[&str]) -> Result<bool, NameFault> {
    let first = path(alloc, first)?;
    let second = path(alloc, second)?;
    Ok(first < second && is_copy(&first, &first.copy(alloc)?))
}

/// The path `a` stands before what is below it, and `a-b` before `a/b`.
const ORDERED: [(&[&str], &[&str]); 3] = [
    (&["a-b"], &["a", "b"]),
    (&["a"], &["a-b"]),
    (&["a"], &["a", "b"]),
];

#[test]
fn paths_stand_in_the_byte_order_of_their_texts(rt: HostRuntime) -> Result<(), NameFault> {
    for (first, second) in ORDERED {
        assert!(rt; is_before(rt.alloc(), first, second)?);
    }
    Ok(())
}

/// The path `a`, which grew by `b`.
fn grown(alloc: Global) -> Result<Path, NameFault> {
    let mut grown = path(alloc, &["a"])?;
    grown.push(Name::read(alloc, "b")?)?;
    Ok(grown)
}

#[test]
fn a_path_grows_by_a_name(rt: HostRuntime) -> Result<(), NameFault> {
    assert!(rt; is_path(rt.alloc(), &grown(rt.alloc())?, "a/b", 2)?);
    Ok(())
}

/// Whether the parent of a path has this text and so many names.
fn is_below(alloc: Global, names: &[&str], parent: &str, count: usize) -> Result<bool, NameFault> {
    let above = path(alloc, names)?.parent(alloc)?;
    Ok(is_path(alloc, &above, parent, count)?)
}

#[test]
fn the_root_is_its_own_parent(rt: HostRuntime) -> Result<(), NameFault> {
    assert!(rt; is_below(rt.alloc(), &["a", "b"], "a", 1)?);
    assert!(rt; is_below(rt.alloc(), &["a"], "", 0)?);
    assert!(rt; is_below(rt.alloc(), &[], "", 0)?);
    Ok(())
}

/// Whether a path is split into this directory and last name.
fn is_split(path: Path, dir: &Path, last: &str) -> bool {
    match path.split_last() {
        Some((front, name)) => front == *dir && name.as_str() == last,
        None => false,
    }
}

/// Whether the path `a/b` is split into `a` and `b`.
fn is_split_at_its_end(alloc: Global) -> Result<bool, NameFault> {
    let dir = path(alloc, &["a"])?;
    Ok(is_split(path(alloc, &["a", "b"])?, &dir, "b"))
}

#[test]
fn a_path_but_the_root_is_split(rt: HostRuntime) -> Result<(), NameFault> {
    assert!(rt; is_split_at_its_end(rt.alloc())?);
    assert!(rt; Path::root(rt.alloc()).split_last().is_none());
    Ok(())
}

/// Whether a name is the same as its copy, and stands before the other.
fn is_first(alloc: Global, name: &Name, other: &Name) -> Result<bool, AllocError> {
    Ok(*name == name.copy(alloc)? && *name < *other)
}

#[test]
fn names_stand_in_their_byte_order(rt: HostRuntime) -> Result<(), NameFault> {
    let name = Name::read(rt.alloc(), "a")?;
    assert!(rt; is_first(rt.alloc(), &name, &Name::read(rt.alloc(), "a!")?)?);
    Ok(())
}

/// A table of 1 at `a/b`, 2 at `a-b` and 3 at `a`.
fn filled(alloc: Global) -> Result<PathTable<u64>, NameFault> {
    let mut table = PathTable::new(alloc);
    put(alloc, &mut table, &["a", "b"], 1)?;
    put(alloc, &mut table, &["a-b"], 2)?;
    put(alloc, &mut table, &["a"], 3)?;
    Ok(table)
}

fn put(
    alloc: Global,
    table: &mut PathTable<u64>,
    names: &[&str],
    value: u64,
) -> Result<(), NameFault> {
    let path = path(alloc, names)?;
    table.insert(path, value)?;
    Ok(())
}

fn values(alloc: Global, table: &PathTable<u64>) -> Result<Vec<u64>, AllocError> {
    let mut values = Vec::new(alloc);
    for (_, value) in table.iter() {
        values.push(*value)?;
    }
    Ok(values)
}

fn has_one(table: &PathTable<u64>, below: &Path) -> bool {
    table.has(below) && table.get(below).copied() == Some(1) && table.len() == 3
}

fn is_in_order(alloc: Global, table: &PathTable<u64>) -> Result<bool, AllocError> {
    Ok(values(alloc, table)?.as_slice() == [3, 2, 1].as_slice())
}

#[test]
fn a_table_is_gone_over_in_the_byte_order_of_its_paths(rt: HostRuntime) -> Result<(), NameFault> {
    let table = filled(rt.alloc())?;
    assert!(rt; is_in_order(rt.alloc(), &table)?);
    assert!(rt; has_one(&table, &path(rt.alloc(), &["a", "b"])?));
    Ok(())
}

fn gives_up(table: &mut PathTable<u64>, below: &Path) -> bool {
    table.remove(below) == Some(1) && !table.has(below) && table.len() == 2
}

#[test]
fn what_is_removed_of_a_table_is_told(rt: HostRuntime) -> Result<(), NameFault> {
    let mut table = filled(rt.alloc())?;
    assert!(rt; gives_up(&mut table, &path(rt.alloc(), &["a", "b"])?));
    Ok(())
}

/// Whether this is the value at the path of one name.
fn is_at(found: &Option<(Path, u64)>, text: &str, value: u64) -> bool {
    match found {
        Some((path, at)) => has_name(path, text) && *at == value,
        None => false,
    }
}

fn has_name(path: &Path, text: &str) -> bool {
    match path.names() {
        [name] => name.as_str() == text,
        _ => false,
    }
}

/// Whether a table gives 1 at `a/b` no sooner than 3 at `a` and 2 at `a-b`.
fn gives_all(table: &mut PathTable<u64>) -> bool {
    table.pop_last().is_some()
        && is_at(&table.pop_last(), "a-b", 2)
        && table.len() == 1
        && is_at(&table.pop_first(), "a", 3)
        && table.pop_first().is_none()
}

#[test]
fn a_table_gives_its_first_and_its_last(rt: HostRuntime) -> Result<(), NameFault> {
    let mut table = filled(rt.alloc())?;
    assert!(rt; gives_all(&mut table));
    Ok(())
}

/// Whether a table of two entries gives 3 at `a` first, and keeps 2 at `a-b`.
fn gives_first_of_two(table: &mut PathTable<u64>) -> bool {
    table.pop_last().is_some()
        && table.len() == 2
        && is_at(&table.pop_first(), "a", 3)
        && table.len() == 1
        && is_at(&table.pop_last(), "a-b", 2)
}

#[test]
fn a_table_of_two_gives_its_first_and_keeps_the_other(rt: HostRuntime) -> Result<(), NameFault> {
    let mut table = filled(rt.alloc())?;
    assert!(rt; gives_first_of_two(&mut table));
    Ok(())
}
