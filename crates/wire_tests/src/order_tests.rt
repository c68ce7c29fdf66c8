//! A target that no head has.
use http_front::{Head, Method, Order, OrderFault, order_of};
use ids::Text;
use library_state::Refusal;
use std::alloc::Global;

/// The head of a GET without a target.
fn head(alloc: Global) -> Head {
    Head {
        used: 0,
        body: 0,
        expects: false,
        closes: false,
        method: Method::Get,
        target: Text::new(alloc),
        token: None,
        tag: None,
    }
}

fn is_no_call(told: &Result<Order, OrderFault>) -> bool {
    match told {
        Ok(_) => false,
        Err(fault) => *fault == OrderFault::Refused(Refusal::NoCall),
    }
}

#[test]
fn an_empty_target_names_no_call(rt: HostRuntime) {
    assert!(rt; is_no_call(&order_of(rt.alloc(), &head(rt.alloc()), b"abc")));
}
