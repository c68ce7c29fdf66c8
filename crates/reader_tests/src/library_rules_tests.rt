//! The right of the act that limits a library's history.
use library_rules::right_needed;
use library_state::{Act, Right};

fn needs(act: Act, right: Right) -> bool {
    right_needed(&act) == right
}

#[test]
fn a_limit_needs_the_right_of_an_owner(rt: HostRuntime) {
    assert!(rt; needs(Act::Limit(30), Right::Owner));
}
