//! The calls that a method and a path name.
ghost use Rattle.std.specs.Prelude.{◌≡◌};
ghost use Rattle.http_front.specs.Route.{head_route, kind_in_path, library_route, limit_of, named_route, object_limit, object_route, pair_route, path_kind, path_route, route_limit, repo_route, route_of, top_route, version_route, word_route};
ghost use Rattle.http_front.specs.Target.{parts};

use crate::method::Method;
use crate::target::path_of;
use ids::{Key, Kind, LibId};
use json_words::{library_id, object_id};

/// A call that a method and a path name, with the names that stand in the path.
#[derive(Debug, Drop)]
pub enum Route {
    /// The version of the protocol is asked for.
    Version,
    /// Whether something may be done with a library. What it is, the query says.
    Check(LibId),
    /// The commit that a library stands at is asked for.
    Head(LibId),
    /// A library is to take in the commit that the query names.
    Update(LibId),
    /// An object of a library is asked for.
    Get(LibId, Key),
    /// The body is to be stored as an object of a library.
    Put(LibId, Key),
    /// Of the ids in the body those are asked for that name no file and no directory of a library.
    CheckFs(LibId),
    /// Of the ids in the body those are asked for that name no block of a library.
    CheckBlocks(LibId),
    /// The rows in the body are to be stored as files and directories of a library.
    PutFs(LibId),
    /// The files and directories of a library with the ids in the body are asked for, as rows.
    GetFs(LibId),
    /// The files and directories of a library are asked for that the first commit of the query needs, and the second,
    /// if there is one, does not.
    Ids(LibId),
    /// It is to be set for how many days a library's history is kept. The query says it.
    Limit(LibId),
    /// What no kept commit of a library needs is to be removed.
    Collect(LibId),
}

/// The call that a method and a target name, if they name one. A query changes nothing here.
#[tactic(auto, unfolding(crate::specs::Route::route_of))]
pub fn route_of(method: Method, target: &str) -> Option<Route>
    ensures value { result ≡ route_of method target.now }
{
    path_route(method, path_of(target))
}

/// The most bytes of a body where no row says otherwise.
const USUAL_LIMIT: u64 = 33_554_432;

/// The most bytes that the body of a request may have, by its method and path alone.
#[tactic(auto, unfolding(crate::specs::Route::limit_of))]
pub(crate) fn body_limit(method: Method, target: &str) -> u64
    ensures { result ≡ limit_of method target.now }
{
    match route_of(method, target) {
        Some(route) => route_limit(&route),
        None => USUAL_LIMIT,
    }
}

/// The most bytes of the body of a call.
fn route_limit(route: &Route) -> u64
    ensures { result ≡ route_limit route.now }
{
    match route {
        Route::Put(_, key) => object_limit(key.kind),
        Route::PutFs(_) => 67_108_864,
        Route::Version
        | Route::Check(_)
        | Route::Head(_)
        | Route::Update(_)
        | Route::Get(_, _)
        | Route::CheckFs(_)
        | Route::CheckBlocks(_)
        | Route::GetFs(_)
        | Route::Ids(_)
        | Route::Limit(_)
        | Route::Collect(_) => USUAL_LIMIT,
    }
}

/// The most bytes of an object that is to be stored.
fn object_limit(kind: Kind) -> u64
    ensures { result ≡ object_limit kind }
{
    match kind {
        Kind::Commit => 1_048_576,
        Kind::Fs => USUAL_LIMIT,
        Kind::Block => 16_777_216,
    }
}

/// A path begins with a slash.
fn path_route(method: Method, path: &str) -> Option<Route>
    ensures { result ≡ path_route method (parts path.now) }
{
    match path.split_once('/') {
        Some((front, rest)) => {
            if front.is_empty() {
                top_route(method, rest)
            } else {
                None
            }
        }
        None => None,
    }
}

/// What follows the first slash.
fn top_route(method: Method, path: &str) -> Option<Route>
    ensures { result ≡ top_route method (parts path.now) }
{
    match path.split_once('/') {
        Some((word, rest)) => {
            if word == "repo" {
                repo_route(method, rest)
            } else {
                None
            }
        }
        None => version_route(method, path),
    }
}

fn version_route(method: Method, word: &str) -> Option<Route>
    ensures { result ≡ version_route method word.now }
{
    match method {
        Method::Get => if word == "protocol-version" {
            Some(Route::Version)
        } else {
            None
        },
        Method::Put | Method::Post | Method::Other => None,
    }
}

/// What follows `/repo/`.
fn repo_route(method: Method, path: &str) -> Option<Route>
    ensures { result ≡ repo_route method (parts path.now) }
{
    match path.split_once('/') {
        Some((name, rest)) => match library_id(name) {
            Some(lib) => library_route(method, lib, rest),
            None => None,
        },
        None => None,
    }
}

/// What follows `/repo/LIB/`.
fn library_route(method: Method, lib: LibId, path: &str) -> Option<Route>
    ensures { result ≡ library_route method lib (parts path.now) }
{
    match path.split_once('/') {
        Some((word, name)) => match name.split_once('/') {
            Some(_) => None,
            None => pair_route(method, lib, word, name),
        },
        None => word_route(method, lib, path),
    }
}

/// What a word alone names.
fn word_route(method: Method, lib: LibId, word: &str) -> Option<Route>
    ensures { result ≡ word_route method lib word.now }
{
    match method {
        Method::Get => get_route(lib, word),
        Method::Post => post_route(lib, word),
        Method::Put => put_route(lib, word),
        Method::Other => None,
    }
}

fn get_route(lib: LibId, word: &str) -> Option<Route>
    ensures { result ≡ word_route Method.Get lib word.now }
{
    if word == "permission-check" {
        return Some(Route::Check(lib));
    }
    if word == "fs-id-list" {
        return Some(Route::Ids(lib));
    }
    None
}

fn put_route(lib: LibId, word: &str) -> Option<Route>
    ensures { result ≡ word_route Method.Put lib word.now }
{
    if word == "history-limit" {
        return Some(Route::Limit(lib));
    }
    None
}

fn post_route(lib: LibId, word: &str) -> Option<Route>
    ensures { result ≡ word_route Method.Post lib word.now }
{
    if word == "check-fs" {
        return Some(Route::CheckFs(lib));
    }
    if word == "check-blocks" {
        return Some(Route::CheckBlocks(lib));
    }
    if word == "recv-fs" {
        return Some(Route::PutFs(lib));
    }
    if word == "pack-fs" {
        return Some(Route::GetFs(lib));
    }
    if word == "collect" {
        return Some(Route::Collect(lib));
    }
    None
}

/// What two words name: the head, or an object.
fn pair_route(method: Method, lib: LibId, word: &str, name: &str) -> Option<Route>
    ensures { result ≡ pair_route method lib word.now name.now }
{
    if name == "HEAD" {
        return head_route(method, lib, word);
    }
    named_route(method, lib, word, name)
}

/// What is asked of the head, which is a commit.
fn head_route(method: Method, lib: LibId, word: &str) -> Option<Route>
    ensures { result ≡ head_route method lib word.now }
{
    if word == "commit" {
        return match method {
            Method::Get => Some(Route::Head(lib)),
            Method::Put => Some(Route::Update(lib)),
            Method::Post | Method::Other => None,
        };
    }
    None
}

/// What a kind of object and an id name.
fn named_route(method: Method, lib: LibId, word: &str, name: &str) -> Option<Route>
    ensures { result ≡ named_route method lib word.now name.now }
{
    let kind = kind_in_path(word)?;
    let id = object_id(name)?;
    object_route(method, lib, Key { kind, id })
}

fn object_route(method: Method, lib: LibId, key: Key) -> Option<Route>
    ensures { result ≡ object_route method lib key }
{
    match method {
        Method::Get => Some(Route::Get(lib, key)),
        Method::Put => Some(Route::Put(lib, key)),
        Method::Post | Method::Other => None,
    }
}

/// The kind of object that a word of a path names.
fn kind_in_path(word: &str) -> Option<Kind>
    ensures { result ≡ kind_in_path word.now }
{
    match Kind::of(word) {
        Some(kind) => path_kind(kind),
        None => None,
    }
}

/// The kind, where a path can name objects of it.
fn path_kind(kind: Kind) -> Option<Kind>
    ensures { result ≡ path_kind kind }
{
    match kind {
        Kind::Commit | Kind::Block => Some(kind),
        Kind::Fs => None,
    }
}
