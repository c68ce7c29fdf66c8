//! Where extensions begin, and the name of a conflict copy whose number no library reaches; with ample memory.
use conflict_names::{ConflictFault, conflict_name, ext_at};
use ids::Text;
use std::alloc::Global;
use tree_model::{Name, NameFault};

/// Whether the extension of a name begins at this place.
fn has_extension_at(alloc: Global, text: &str, place: u64) -> Result<bool, NameFault> {
    let name = Name::read(alloc, text)?;
    Ok(ext_at(&name) == place)
}

/// A name, and where its extension begins.
const EXTENSIONS: [(&str, u64); 6] = [
    ("a.b.c", 3),
    (".rc", 3),
    ("a", 1),
    ("..rc", 1),
    ("a.", 1),
    ("\u{1f600}.png", 4),
];

#[test]
fn an_extension_begins_at_the_last_dot_past_place_0(rt: HostRuntime) -> Result<(), NameFault> {
    for (name, place) in EXTENSIONS {
        assert!(rt; has_extension_at(rt.alloc(), name, place)?, "{name}");
    }
    Ok(())
}

fn is_made(made: &Result<Name, ConflictFault>, wanted: &str) -> bool {
    match made {
        Ok(made) => made.as_str() == wanted,
        Err(_) => false,
    }
}

/// Whether the greatest number makes this name.
fn is_named(alloc: Global, wanted: &str) -> Result<bool, NameFault> {
    let name = Name::read(alloc, "x")?;
    let modifier = Text::copy(alloc, "me")?;
    Ok(is_made(
        &conflict_name(alloc, &name, &modifier, i64::MAX, u32::MAX),
        wanted,
    ))
}

#[test]
fn a_conflict_name_may_have_the_greatest_number(rt: HostRuntime) -> Result<(), NameFault> {
    assert!(rt;
        is_named(
            rt.alloc(),
            "x (SFConflict me 9999-01-01-00-00-00-4294967295)"
        )?
    );
    Ok(())
}
