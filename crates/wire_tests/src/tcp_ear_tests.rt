//! Ears over TCP, at ports of this machine.
use http_front::Link;
use ids::Items;
use link_ears::{Ear, Net, NetFault, TcpEar, TcpNet};
use std::io;
use std::io::{Read, Write};
use std::net::{TcpListener, TcpStream};
use std::test::Fail;
use tcp_links::TcpLink;
use worker_server::Served;

/// A port that nobody listens at.
fn free_port(rt: &HostRuntime) -> io::Result<u16> {
    let listener = TcpListener::bind(rt, "127.0.0.1:0")?;
    Ok(listener.local_addr()?.port())
}

/// Whether these three bytes come over a link, and three others go back.
fn goes_both_ways(link: &mut TcpLink, client: &mut TcpStream) -> io::Result<bool> {
    let mut piece = [0; 16];
    client.write_all(b"abc")?;
    let is_taken = match link.take(piece.as_mut_slice()) {
        Ok(count) => &piece[..count] == b"abc".as_slice(),
        Err(_) => false,
    };
    let mut back = [0; 3];
    let is_given = link.give(b"def").is_ok();
    client.read_exact(back.as_mut_slice())?;
    Ok(is_taken && is_given && &back[..] == b"def".as_slice())
}

/// Whether an ear gives a link to this client, and takes it back.
fn serves(ear: &mut TcpEar, client: &mut TcpStream) -> io::Result<bool> {
    match ear.accept() {
        Ok(Some(link)) => {
            let mut link = link;
            let is_good = goes_both_ways(&mut link, client)?;
            ear.give_back(link, Served::Ended);
            Ok(is_good)
        }
        _ => Ok(false),
    }
}

/// Whether an ear says that no more links come.
fn is_over(ear: &mut TcpEar) -> bool {
    match ear.accept() {
        Ok(Some(link)) => {
            ear.give_back(link, Served::Ended);
            false
        }
        Ok(None) => true,
        Err(_) => false,
    }
}

/// Whether each of two ears gives one link, to clients that both came before, and no more.
fn each_gives_one(rt: &HostRuntime, port: u16, ears: &mut Vec<TcpEar>) -> io::Result<bool> {
    let mut first = TcpStream::connect(rt, ("127.0.0.1", port))?;
    let mut second = TcpStream::connect(rt, ("127.0.0.1", port))?;
    let [one, two] = ears.as_mut_slice() else {
        return Ok(false);
    };
    let is_good = serves(one, &mut first)? && serves(two, &mut second)?;
    Ok(is_good && is_over(one) && is_over(two))
}

/// Whether a port that is open can't be opened, which is counted.
fn refuses(rt: &HostRuntime, port: u16) -> Result<bool, Fail> {
    let mut net = TcpNet::new(rt.clone()?, rt.stderr(), 0);
    let is_refused = match net.ears(rt.alloc(), port, 1, 1) {
        Ok(ears) => {
            net.give_back(ears);
            false
        }
        Err(fault) => fault == NetFault::Link,
    };
    Ok(is_refused && net.faults() == 1)
}

/// Whether two ears at a port serve as they are to, while it can't be opened again.
fn listens(rt: &HostRuntime) -> Result<bool, Fail> {
    let port = free_port(rt)?;
    let mut net = TcpNet::new(rt.clone()?, rt.stderr(), 0);
    let mut ears = match net.ears(rt.alloc(), port, 2, 1) {
        Ok(ears) => ears.into_vec(),
        Err(_) => return Ok(false),
    };
    let is_good = each_gives_one(rt, port, &mut ears)? && refuses(rt, port)?;
    net.give_back(Items::from_vec(ears));
    Ok(is_good && net.faults() == 0)
}

#[test]
fn two_ears_at_a_port_give_their_links(rt: HostRuntime) -> Result<(), Fail> {
    assert!(rt; listens(&rt)?);
    Ok(())
}
