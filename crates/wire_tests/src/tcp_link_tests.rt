//! Links over TCP, to listeners of this machine.
use http_front::{Dial, Link};
use std::io;
use std::io::{Read, Write};
use std::net::{TcpListener, TcpStream};
use std::test::Fail;
use tcp_links::{TcpDial, TcpLink, Waits};

/// A listener, and its port.
fn listener(rt: &HostRuntime) -> io::Result<(TcpListener, u16)> {
    let listener = TcpListener::bind(rt, "127.0.0.1:0")?;
    let port = listener.local_addr()?.port();
    Ok((listener, port))
}

/// Whether these three bytes come.
fn reads(stream: &mut TcpStream, bytes: &[u8]) -> io::Result<bool> {
    let mut piece = [0; 3];
    stream.read_exact(piece.as_mut_slice())?;
    Ok(&piece[..] == bytes)
}

/// Whether these bytes, and no more than them, are taken.
fn takes(link: &mut TcpLink, bytes: &[u8]) -> bool {
    let mut piece = [0; 16];
    match link.take(piece.as_mut_slice()) {
        Ok(count) => &piece[..count] == bytes,
        Err(_) => false,
    }
}

/// The peer: it reads three bytes, answers and closes. The answer is whether it read them.
fn serves(listener: &TcpListener) -> io::Result<bool> {
    let (stream, _) = listener.accept()?;
    let mut stream = stream;
    let is_read = reads(&mut stream, b"abc")?;
    stream.write_all(b"defg")?;
    Ok(is_read)
}

/// Whether bytes go both ways over a link, up to the peer's end.
fn goes_both_ways(link: &mut TcpLink, listener: &TcpListener) -> io::Result<bool> {
    Ok(link.give(b"abc").is_ok() && serves(listener)? && takes(link, b"defg") && takes(link, b""))
}

/// Whether a link that was made to a host is good, and the dial counts no fault.
fn links(rt: &HostRuntime, listener: &TcpListener, host: &str) -> Result<bool, Fail> {
    let port = listener.local_addr()?.port();
    let mut dial = TcpDial::new(rt.clone()?);
    let is_good = match dial.link(host, port) {
        Ok(link) => {
            let mut link = link;
            let is_good = goes_both_ways(&mut link, listener)?;
            dial.hang_up(link);
            is_good
        }
        Err(_) => false,
    };
    Ok(is_good && dial.faults() == 0)
}

#[test]
fn bytes_go_both_ways_over_a_link(rt: HostRuntime) -> Result<(), Fail> {
    let (listener, _) = listener(&rt)?;
    let is_good = links(&rt, &listener, "localhost")?;
    drop(listener);
    assert!(rt; is_good);
    Ok(())
}

/// Whether a link to this machine's address of IPv6 is good. A machine that has none shows nothing.
fn links_over_ipv6(rt: &HostRuntime) -> Result<bool, Fail> {
    match TcpListener::bind(rt, "[::1]:0") {
        Ok(listener) => links(rt, &listener, "::1"),
        Err(_) => Ok(true),
    }
}

#[test]
fn bytes_go_both_ways_over_a_link_to_an_address_of_ipv6(rt: HostRuntime) -> Result<(), Fail> {
    assert!(rt; links_over_ipv6(&rt)?);
    Ok(())
}

/// Whether a port that nobody listens at is a fault, which is counted.
fn counts_a_closed_port(rt: &HostRuntime) -> Result<bool, Fail> {
    let (listener, port) = listener(rt)?;
    drop(listener);
    let mut dial = TcpDial::new(rt.clone()?);
    let is_refused = match dial.link("127.0.0.1", port) {
        Ok(link) => {
            dial.hang_up(link);
            false
        }
        Err(_) => true,
    };
    Ok(is_refused && dial.faults() == 1)
}

#[test]
fn a_port_that_is_not_open_is_a_fault(rt: HostRuntime) -> Result<(), Fail> {
    assert!(rt; counts_a_closed_port(&rt)?);
    Ok(())
}

/// Whether a take over a connection ends where the peer says nothing, as a fault which is counted.
fn counts_a_silent_peer(stream: TcpStream) -> Result<bool, Fail> {
    let mut link = TcpLink::new(stream, Waits { take: 1, give: 1 })?;
    let mut piece = [0; 16];
    Ok(link.take(piece.as_mut_slice()).is_err() && link.faults() == 1)
}

#[test]
fn a_peer_that_says_nothing_is_a_fault_in_time(rt: HostRuntime) -> Result<(), Fail> {
    let (listener, port) = listener(&rt)?;
    let is_counted = counts_a_silent_peer(TcpStream::connect(&rt, ("127.0.0.1", port))?)?;
    drop(listener);
    assert!(rt; is_counted);
    Ok(())
}

/// Whether limits of no seconds are refused.
fn refuses_no_seconds(stream: TcpStream) -> bool {
    TcpLink::new(stream, Waits { take: 0, give: 1 }).is_err()
}

#[test]
fn a_link_must_wait_for_its_peer(rt: HostRuntime) -> Result<(), Fail> {
    let (listener, port) = listener(&rt)?;
    let is_refused = refuses_no_seconds(TcpStream::connect(&rt, ("127.0.0.1", port))?);
    drop(listener);
    assert!(rt; is_refused);
    Ok(())
}
