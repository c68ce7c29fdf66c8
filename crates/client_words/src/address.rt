//! The address of a server: `http://HOST:PORT`.
ghost use Rattle.std.specs.Prelude.{◌≡◌, ◌≤◌, IfOk, IfSome, codes, option_map};
ghost use Rattle.client_words.specs.Address.{address_in, address_of, after, begins_with_zero, host_of, number_up_to, server_of};

use http_client::is_host;
use http_front::number_in;
use ids::Text;
use std::alloc::{AllocError, Global};

/// The highest port.
pub(crate) const MAX_PORT: u16 = 65_535;

/// Where a server listens, as `server_of` gives it: with a host of 1 to 255 ASCII letters, digits, `.` and `-`, as
/// `http_client::is_host` tells, and a port from 1 on.
#[derive(Debug, Drop)]
pub struct Server {
    pub host: Text,
    pub port: u16,
}

/// The server that a text names as `http://HOST:PORT`, and none where it is no such text. PORT is from 1 to 65,535, in
/// decimal without leading zeros. Our own; there is no other scheme, no path and no address in brackets.
pub fn server_of(alloc: Global, text: &str) -> Result<Option<Server>, AllocError>
    ensures value { IfOk result (λ server. server ≡ server_of text.now) }
{
    match after_scheme(text) {
        Some(address) => address_in(alloc, address),
        None => Ok(None),
    }
}

/// What follows `http://`.
#[tactic(auto, using(crate::proofs::AddressLemmas::after_front))]
fn after_scheme(text: &str) -> Option<&str>
    ensures value { option_map (λ address. address.now) result ≡ after (codes "http://") text.now }
{
    text.strip_prefix("http://")
}

/// The server of a name and a port with a colon between them.
fn address_in(alloc: Global, address: &str) -> Result<Option<Server>, AllocError>
    ensures value { IfOk result (λ server. server ≡ address_in address.now) }
{
    match address.split_once(':') {
        Some((host, port)) => address_of(alloc, host, port),
        None => Ok(None),
    }
}

/// The server of this name and port.
fn address_of(alloc: Global, host: &str, port: &str) -> Result<Option<Server>, AllocError>
    ensures value { IfOk result (λ server. server ≡ address_of host.now port.now) }
{
    let port = match number_up_to(port, u32::from(MAX_PORT)) {
        Some(port) => port as u16,
        None => return Ok(None),
    };
    match host_of(alloc, host)? {
        Some(host) => Ok(Some(Server { host, port })),
        None => Ok(None),
    }
}

/// The name of a host that a text is: 1 to 255 ASCII letters, digits, `.` and `-`.
pub(crate) fn host_of(alloc: Global, text: &str) -> Result<Option<Text>, AllocError>
    ensures value { IfOk result (λ host. host ≡ host_of text.now) }
{
    let host = Text::copy(alloc, text)?;
    if !is_host(&host) {
        return Ok(None);
    }
    Ok(Some(host))
}

/// The number from 1 to `most` that a text is, in decimal without leading zeros. It takes no memory.
pub fn number_up_to(text: &str, most: u32) -> Option<u32>
    ensures value { result ≡ number_up_to most text.now }
    ensures bound { IfSome result (λ number. (1 ≤ number) × (number ≤ most)) }
{
    let digits = text.as_bytes();
    if begins_with_zero(digits) {
        return None;
    }
    match number_in(digits) {
        Some(number) => if 1 <= number && number <= u64::from(most) {
            Some(number as u32)
        } else {
            None
        },
        None => None,
    }
}

fn begins_with_zero(digits: &[u8]) -> bool
    ensures value { result ≡ begins_with_zero digits.now }
{
    match digits {
        [first, ..] => *first == b'0',
        [] => false,
    }
}
