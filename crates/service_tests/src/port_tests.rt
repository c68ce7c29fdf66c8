//! A port over a net in memory: two workers that serve beside each other, and one that serves two connections.
use crate::gate_ground::GateGround;
use crate::gate_link::{GateLink, Role};
use crate::library_server_tests::{PUT, STORED};
use crate::standing_clock::Stands;
use http_front::{Link, LinkFailed, Sink};
use ids::{Items, Text};
use library_server::run;
use link_ears::MemoryNet;
use object_store::Gate;
use std::alloc::{AllocError, Global};
use std::sync::{Arc, Wait};
use std::test::Fail;
use std::thread::Threads;

/// The two ends of a program that is asked nothing, and prints this line. They tell nothing.
#[derive(Drop)]
struct Ends {
    line: &'static [u8],
    is_printed: bool,
}

impl Link for Ends {
    ghost use Rattle.std.specs.Prelude.{None};

    ghost left = { λ ends. None };

    ghost taken = { λ ends. None };

    ghost given = { λ ends. None };

    ghost asked = { λ ends. None };

    ghost faults = { λ ends. 0 };

    fn take(&mut self, into: &mut [u8]) -> Result<usize, LinkFailed> {
        let _ = into;
        Ok(0)
    }

    fn give(&mut self, piece: &[u8]) -> Result<(), LinkFailed> {
        let _ = piece;
        Ok(())
    }
}

impl Sink for Ends {
    ghost use Rattle.std.specs.Prelude.{None};

    ghost given = { λ ends. None };

    ghost faults = { λ ends. 0 };

    fn put_all(&mut self, piece: &[u8]) -> Result<(), LinkFailed> {
        self.is_printed = piece == self.line;
        Ok(())
    }
}

fn words_of(alloc: Global, line: &[&str]) -> Result<Items<Text>, AllocError> {
    let mut words = Items::new(alloc);
    for word in line {
        words.push(Text::copy(alloc, word)?)?;
    }
    Ok(words)
}

/// Whether these words are done, and print this line.
fn is_run<R: Threads + Wait + Sync>(
    rt: &R,
    alloc: Global,
    words: &[Text],
    line: &'static [u8],
    ground: &mut GateGround,
    net: &mut MemoryNet<GateLink>,
) -> bool {
    let mut link = Ends {
        line: b"",
        is_printed: false,
    };
    let mut out = Ends {
        line,
        is_printed: false,
    };
    let status = run(rt, alloc, words, ground, &mut link, net, &Stands, &mut out);
    status == 0 && out.is_printed
}

/// Whether a command is done, and prints this line.
fn is_done<R: Threads + Wait + Sync>(
    rt: &R,
    alloc: Global,
    command: &[&str],
    line: &'static [u8],
    ground: &mut GateGround,
    net: &mut MemoryNet<GateLink>,
) -> bool {
    match words_of(alloc, command) {
        Ok(words) => is_run(rt, alloc, words.slice(), line, ground, net),
        Err(_) => false,
    }
}

/// The links of one ear, which give these requests and do this at the gate.
fn links_of(
    alloc: Global,
    gate: &Arc<Gate, Global>,
    role: Role,
    requests: &[&'static [u8]],
) -> Result<Vec<GateLink>, AllocError> {
    let mut links = Vec::new(alloc);
    for asked in requests {
        links.push(GateLink::new(alloc, gate, role, asked)?)?;
    }
    Ok(links)
}

/// Whether the ear at this place came back with its links, to which these replies were given in time.
fn is_back(net: &MemoryNet<GateLink>, place: usize, replies: &[&[u8]]) -> bool {
    match net.returned().get(place) {
        Some(ear) => are_given(ear.returned(), replies),
        None => false,
    }
}

/// Whether these links are as many as these replies, and were given them in time.
fn are_given(links: &[GateLink], replies: &[&[u8]]) -> bool {
    links.len() == replies.len()
        && links
            .iter()
            .zip(replies)
            .all(|(link, replies)| link.is_given(replies))
}

const FIRST: &[&str] = &[
    "create",
    "F",
    "11111111-2222-4333-8444-555555555555",
    "docs",
    "me",
    "aaaaaaaaaaaaaaaaaaaaaaaaaaaaaaaaaaaaaaaa",
];

const FIRST_MADE: &[u8] =
    b"created 11111111-2222-4333-8444-555555555555 d1d7d86c3e5831c6b49f1e925feb7c7c2fb8f027\n";

const SECOND: &[&str] = &[
    "create",
    "F",
    "11111111-2222-4333-8444-555555555556",
    "docs",
    "me",
    "aaaaaaaaaaaaaaaaaaaaaaaaaaaaaaaaaaaaaaaa",
];

const SECOND_MADE: &[u8] =
    b"created 11111111-2222-4333-8444-555555555556 948072fe5b871d3f0044b644683816ccb230c84b\n";

/// Two workers serve both libraries, each one connection.
const SERVE: &[&str] = &[
    "serve",
    "F",
    "8082",
    "2",
    "1",
    "11111111-2222-4333-8444-555555555555",
    "11111111-2222-4333-8444-555555555556",
];

const SERVED: &[u8] = b"served 2\n";

/// The head of the second library is asked for, and then whether the first one is still as it was opened.
const LOOKS: &[u8] =
    b"GET /repo/11111111-2222-4333-8444-555555555556/commit/HEAD HTTP/1.1\r\nHost: x\r\nSeafile-Repo-Token: aaaaaaaaaaaaaaaaaaaaaaaaaaaaaaaaaaaaaaaa\r\n\r\nGET /repo/11111111-2222-4333-8444-555555555555/commit/HEAD HTTP/1.1\r\nHost: x\r\nSeafile-Repo-Token: aaaaaaaaaaaaaaaaaaaaaaaaaaaaaaaaaaaaaaaa\r\nIf-None-Match: \"2-0\"\r\n\r\n";

/// The first one still is, as long as its put is held. Both were opened once since they were made.
const TOLD: &[u8] =
    b"HTTP/1.1 200 OK\r\nContent-Type: application/json\r\nContent-Length: 78\r\nETag: \"2-0\"\r\n\r\n{\"head_commit_id\":\"948072fe5b871d3f0044b644683816ccb230c84b\",\"is_corrupted\":0}HTTP/1.1 304 Not Modified\r\nETag: \"2-0\"\r\n\r\n";

/// A net of two ears of one link each: the first closes the gate and puts a block, the second looks at both libraries while that put is
/// held, and opens it.
fn two_ears(alloc: Global, gate: &Arc<Gate, Global>) -> Result<MemoryNet<GateLink>, AllocError> {
    let mut lists = Vec::new(alloc);
    lists.push(links_of(alloc, gate, Role::Closes, &[PUT])?)?;
    lists.push(links_of(alloc, gate, Role::Opens(TOLD.len()), &[LOOKS])?)?;
    MemoryNet::new(alloc, lists, Items::new(alloc))
}

/// Whether both libraries are made, and are there afterwards.
fn are_made<R: Threads + Wait + Sync>(
    rt: &R,
    alloc: Global,
    ground: &mut GateGround,
    net: &mut MemoryNet<GateLink>,
) -> bool {
    is_done(rt, alloc, FIRST, FIRST_MADE, ground, net)
        && is_done(rt, alloc, SECOND, SECOND_MADE, ground, net)
        && ground.has_both()
}

/// Whether two workers serve them, and both are there afterwards, the first one with the block.
fn are_served<R: Threads + Wait + Sync>(
    rt: &R,
    alloc: Global,
    ground: &mut GateGround,
    net: &mut MemoryNet<GateLink>,
) -> bool {
    is_done(rt, alloc, SERVE, SERVED, ground, net) && ground.has_both() && ground.has_put(b"abc")
}

#[test]
fn two_workers_serve_a_port_beside_each_other(rt: HostRuntime) -> Result<(), Fail> {
    let alloc = rt.alloc();
    let gate = Arc::new(alloc, Gate::new())?;
    let mut net = two_ears(alloc, &gate)?;
    let mut ground = GateGround::new(alloc, gate);
    assert!(rt; are_made(&rt, alloc, &mut ground, &mut net));
    assert!(rt; are_served(&rt, alloc, &mut ground, &mut net));
    assert!(rt; is_back(&net, 0, &[STORED]) && is_back(&net, 1, &[TOLD]));
    Ok(())
}

/// One worker serves a library in memory, two connections.
const SERVE_ONE: &[&str] = &[
    "serve",
    ":memory:",
    "8082",
    "1",
    "2",
    "11111111-2222-4333-8444-555555555555",
];

/// The head is asked for, and then whether the library is still as it was made.
const LOOKS_AT_NEW: &[u8] =
    b"GET /repo/11111111-2222-4333-8444-555555555555/commit/HEAD HTTP/1.1\r\nHost: x\r\nSeafile-Repo-Token: aaaaaaaaaaaaaaaaaaaaaaaaaaaaaaaaaaaaaaaa\r\n\r\nGET /repo/11111111-2222-4333-8444-555555555555/commit/HEAD HTTP/1.1\r\nHost: x\r\nSeafile-Repo-Token: aaaaaaaaaaaaaaaaaaaaaaaaaaaaaaaaaaaaaaaa\r\nIf-None-Match: \"1-0\"\r\n\r\n";

/// It still is: a library that is made for a command is served without another opening.
const NEW: &[u8] =
    b"HTTP/1.1 200 OK\r\nContent-Type: application/json\r\nContent-Length: 78\r\nETag: \"1-0\"\r\n\r\n{\"head_commit_id\":\"d1d7d86c3e5831c6b49f1e925feb7c7c2fb8f027\",\"is_corrupted\":0}HTTP/1.1 304 Not Modified\r\nETag: \"1-0\"\r\n\r\n";

/// A net of one ear of two links: one looks at the library, and the next one puts a block.
fn one_ear(alloc: Global, gate: &Arc<Gate, Global>) -> Result<MemoryNet<GateLink>, AllocError> {
    let mut lists = Vec::new(alloc);
    lists.push(links_of(alloc, gate, Role::Passes, &[LOOKS_AT_NEW, PUT])?)?;
    MemoryNet::new(alloc, lists, Items::new(alloc))
}

#[test]
fn one_worker_serves_two_connections_of_a_library_in_memory(rt: HostRuntime) -> Result<(), Fail> {
    let alloc = rt.alloc();
    let gate = Arc::new(alloc, Gate::new())?;
    let mut net = one_ear(alloc, &gate)?;
    let mut ground = GateGround::new(alloc, gate);
    assert!(rt; is_done(&rt, alloc, SERVE_ONE, SERVED, &mut ground, &mut net));
    assert!(rt; ground.has_put(b"abc") && is_back(&net, 0, &[NEW, STORED]));
    Ok(())
}
