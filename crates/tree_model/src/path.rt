//! A path from the root of a tree, ordered by the bytes of its text.
ghost use Rattle.std.specs.Prelude.{◌≡◌, ◌==◌, ◌∷◌, ◌++◌, [], IfOk, OnOk, OnSome, ◌≤◌, length, map, slice_get, string_bytes, if◌then◌else◌};
ghost use Rattle.std.specs.List.{slice_split};
ghost use Rattle.std.specs.Ordering.{nat_cmp};
ghost use Rattle.std.specs.Cmp.Lexicographic.{slice_cmp};
ghost use Rattle.tree_model.specs.DirectorySurvival.{is_under};
ghost use Rattle.tree_model.specs.Path.{good_path, path_cmp, slashed, parent_of};

use crate::name::{Name, NameFault};
use ids::Text;
use std::alloc::{AllocError, Global};
use std::cmp::Ordering;
use std::marker::Model;

/// A list of names from the root of a tree on; the root itself has none.
///
/// Contracts see it as the list of its names' bytes, each of which is a good name. Paths are ordered by
/// the bytes of their texts, names joined by `/`: `a-b` stands before `a/b`.
#[derive(Debug, Drop)]
pub struct Path {
    names: Vec<Name>,
}

impl Model for Path {
    ghost use Rattle.std.specs.Prelude.{List, ℕ};
    ghost use Rattle.tree_model.specs.Path.{IsPath};

    ghost Value = { List (List ℕ) };

    ghost view = { λ a. a.names.items };

    ghost invariant = { λ a. IsPath a.names.items };
}

impl Path {
    ghost use Rattle.std.specs.Prelude.{◌≡◌, ◌≢◌, ◌∷◌, ◌++◌, [], IfOk, IfSome, OnOk, OnErr, MatchOption};
    ghost use Rattle.tree_model.specs.DirectorySurvival.{is_under};
    ghost use Rattle.tree_model.specs.Path.{IsPath, parent_of, path_of, path_text};

    /// The path of the root, which has no names.
    pub fn root(alloc: Global) -> Path
        ensures value { result ≡ [] }
    {
        Path {
            names: Vec::new(alloc),
        }
    }

    /// The path whose text this is: good names with `/` between them. The text of the root has no bytes, and is none.
    pub fn read(alloc: Global, text: &str) -> Result<Option<Path>, AllocError>
        ensures value { IfOk result (λ path. path ≡ path_of text.now) }
        ensures proper { IfOk result (λ told. IfSome told (λ path. path ≢ [])) }
    {
        let names = pieces_of(alloc, text)?;
        good_path(alloc, names.as_slice())
    }

    /// The names from the root on.
    pub fn names(&self) -> &[Name]
        ensures value { result.now ≡ self.now }
        ensures path { IsPath self.now }
    {
        self.names.as_slice()
    }

    /// The path of an entry in this directory.
    pub fn child(&self, alloc: Global, name: &Name) -> Result<Path, AllocError>
        ensures value { IfOk result (λ path. path ≡ self.now ++ name.now ∷ []) }
    {
        let mut names = copy_names(alloc, self.names(), self.names.len() + 1)?;
        names.push(name.copy(alloc)?)?;
        Ok(Path { names })
    }

    /// Adds a name: the path becomes that of an entry in the directory that it named. After an error it is as it was.
    pub fn push(&mut self, name: Name) -> Result<(), AllocError>
        ensures ok { OnOk result (self.new ≡ self.old ++ name ∷ []) }
        ensures err { OnErr result (self.new ≡ self.old) }
    {
        match self.names.push(name) {
            Ok(()) => Ok(()),
            Err(failed) => Err(failed.into()),
        }
    }

    /// The path of the directory that this entry stands in; the root for the root.
    pub fn parent(&self, alloc: Global) -> Result<Path, AllocError>
        ensures value { IfOk result (λ path. path ≡ parent_of self.now) }
    {
        let above = names_above(self.names());
        let names = copy_names(alloc, above, above.len())?;
        Ok(Path { names })
    }

    /// The directory that this entry stands in, and its own name; none for the root. It takes no memory.
    pub fn split_last(self) -> Option<(Path, Name)>
        ensures value { MatchOption result (self ≡ []) (λ parts. self ≡ parts.0 ++ parts.1 ∷ []) }
    {
        let mut names = self.names;
        match names.pop() {
            Some(name) => Some((Path { names }, name)),
            None => None,
        }
    }

    /// The names joined by `/`; the empty text for the root.
    pub fn text(&self, alloc: Global) -> Result<Text, AllocError>
        ensures value { IfOk result (λ text. text ≡ path_text self.now) }
        ensures path { IsPath self.now }
    {
        let mut text = String::new(alloc);
        for (place, name) in self.names().iter().enumerate() {
            push_name(&mut text, name, place > 0)?;
        }
        Ok(Text::from_string(text))
    }

    /// Whether this is the path of something below the directory.
    pub fn is_under(&self, dir: &Path) -> bool
        ensures value { result ≡ is_under dir.now self.now }
    {
        stands_under(dir.names(), self.names())
    }

    /// A copy of the path.
    pub fn copy(&self, alloc: Global) -> Result<Path, AllocError>
        ensures value { IfOk result (λ path. path ≡ self.now) }
    {
        let names = copy_names(alloc, self.names(), self.names.len())?;
        Ok(Path { names })
    }
}

/// The pieces of a path's text.
fn pieces_of(alloc: Global, text: &str) -> Result<Vec<&str>, AllocError>
    ensures value { IfOk result (λ pieces. map (λ piece. piece.now) pieces.items ≡ slice_split (λ b. b == 47) text.entry.now) }
{
    text.split('/').collect(alloc)
}

/// The path with these names, where they are good.
fn good_path(alloc: Global, names: &[&str]) -> Result<Option<Path>, AllocError>
    ensures value { IfOk result (λ path. path ≡ good_path (map (λ name. name.now) names.now)) }
{
    let mut path = Path::root(alloc);
    for name in names {
        match Name::read(alloc, name) {
            Ok(name) => path.push(name)?,
            Err(NameFault::Bad(_)) => return Ok(None),
            Err(NameFault::NoMemory) => return Err(AllocError),
        }
    }
    Ok(Some(path))
}

/// The names of the directory that the entry stands in; of no names none.
fn names_above(names: &[Name]) -> &[Name]
    ensures value { result.now ≡ parent_of names.now }
{
    if names.is_empty() {
        names
    } else {
        &names[..names.len() - 1]
    }
}

/// Whether a path has the names of a directory in front, and more.
fn stands_under(dir: &[Name], path: &[Name]) -> bool
    ensures value { result ≡ is_under dir.now path.now }
{
    match (dir.split_first(), path.split_first()) {
        (Some((first, dirs)), Some((name, names))) => first == name && stands_under(dirs, names),
        (None, Some(_)) => true,
        (Some(_), None) => false,
        (None, None) => false,
    }
}

/// Appends a name to a path's text, behind a `/` where it isn't the first.
fn push_name(text: &mut String, name: &Name, follows: bool) -> Result<(), AllocError>
    ensures ok { OnOk result (string_bytes text.new ≡ string_bytes text.old ++ (if follows then 47 ∷ name.now else name.now)) }
{
    if follows {
        text.push_str("/")?;
    }
    text.push_str(name.as_str())?;
    Ok(())
}

/// Copies of the names, in a list with room for so many.
fn copy_names(alloc: Global, names: &[Name], room: usize) -> Result<Vec<Name>, AllocError>
    ensures value { IfOk result (λ copies. copies.items ≡ names.now) }
{
    let mut copies = Vec::with_capacity(alloc, room)?;
    for name in names {
        copies.push(name.copy(alloc)?)?;
    }
    Ok(copies)
}

/// Compares two paths by the bytes of their texts.
fn compare_names(left: &[Name], right: &[Name]) -> Ordering
    ensures value { result ≡ path_cmp left.now right.now }
{
    match (left.split_first(), right.split_first()) {
        (Some((a, left_more)), Some((b, right_more))) => {
            match compare_pieces(
                a.bytes(),
                !left_more.is_empty(),
                b.bytes(),
                !right_more.is_empty(),
            ) {
                Ordering::Equal => compare_names(left_more, right_more),
                differs => differs,
            }
        }
        (Some(_), None) => Ordering::Greater,
        (None, Some(_)) => Ordering::Less,
        (None, None) => Ordering::Equal,
    }
}

/// Compares two names as they stand in texts, with a `/` behind each that more names follow.
fn compare_pieces(left: &[u8], left_more: bool, right: &[u8], right_more: bool) -> Ordering
    ensures value { result ≡ slice_cmp nat_cmp (slashed left.now left_more) (slashed right.now right_more) }
{
    let mut place = 0;
    loop {
        match (
            byte_at(left, left_more, place),
            byte_at(right, right_more, place),
        ) {
            (Some(a), Some(b)) => {
                if a != b {
                    return a.cmp(&b);
                }
            }
            (Some(_), None) => return Ordering::Greater,
            (None, Some(_)) => return Ordering::Less,
            (None, None) => return Ordering::Equal,
        }
        place += 1;
    }
}

/// The byte at a place of a name with the `/` behind it, if there is one.
fn byte_at(name: &[u8], more: bool, place: usize) -> Option<u8>
    ensures value { result ≡ slice_get (slashed name.now more) place }
    ensures bound { OnSome result (place ≤ length name.now) }
{
    if place < name.len() {
        Some(name[place])
    } else if more && place == name.len() {
        Some(b'/')
    } else {
        None
    }
}

impl PartialEq for Path {
    ghost use Rattle.std.specs.Prelude.{nat_eq};
    ghost use Rattle.std.specs.Cmp.Lexicographic.{pointwise, lists_equiv, nat_list_eq_equiv};
    ghost use Rattle.std.specs.Cmp.{partial_equiv_from_equiv};

    ghost eq = { pointwise (pointwise nat_eq) };

    ghost laws = { partial_equiv_from_equiv (lists_equiv nat_list_eq_equiv) };

    fn eq(&self, other: &Path) -> bool {
        self.names() == other.names()
    }
}

impl Eq for Path {
    ghost use Rattle.std.specs.Cmp.Lexicographic.{lists_equiv, nat_list_eq_equiv};

    ghost laws = { lists_equiv nat_list_eq_equiv };
}

impl PartialOrd for Path {
    ghost use Rattle.std.specs.Ordering.{as_partial_cmp};
    ghost use Rattle.std.specs.Cmp.{partial_order_from_agreeing_total};
    ghost use Rattle.std.specs.Prelude.{refl};
    ghost use Rattle.tree_model.specs.Path.{path_cmp};
    ghost use Rattle.tree_model.specs.PathOrder.{paths_total, paths_tie};

    ghost partial_cmp = { as_partial_cmp path_cmp };

    ghost laws = { partial_order_from_agreeing_total path_cmp paths_total (λ x y. refl) paths_tie };

    fn partial_cmp(&self, other: &Path) -> Option<Ordering> {
        Some(self.cmp(other))
    }
}

impl Ord for Path {
    ghost use Rattle.std.specs.Prelude.{refl};
    ghost use Rattle.tree_model.specs.Path.{path_cmp};
    ghost use Rattle.tree_model.specs.PathOrder.{paths_total, paths_tie};

    ghost cmp = { path_cmp };

    ghost total = { paths_total };

    ghost matches_partial_cmp = { λ x y. refl };

    ghost matches_eq = { paths_tie };

    fn cmp(&self, other: &Path) -> Ordering {
        compare_names(self.names(), other.names())
    }
}
