//! The target of a request, cut into the parts of its path.

ghost use Rattle.std.specs.Prelude.{◌≡◌};
ghost use Rattle.http_front.specs.Target.{path_of, before_query, without_end_slash};

/// The path of a target: what stands in front of the query, without one slash at its end.
pub fn path_of(target: &str) -> &str
    ensures { result.now ≡ path_of target.now }
{
    without_end_slash(before_query(target))
}

fn before_query(target: &str) -> &str
    ensures { result.now ≡ before_query target.now }
{
    match target.split_once('?') {
        Some((path, _query)) => path,
        None => target,
    }
}

fn without_end_slash(path: &str) -> &str
    ensures { result.now ≡ without_end_slash path.now }
{
    match path.strip_suffix('/') {
        Some(front) => front,
        None => path,
    }
}
