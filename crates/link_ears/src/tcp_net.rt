//! A net over TCP.
ghost use Rattle.std.specs.Prelude.{◌≡◌, [], ◌++◌, length, map, All, IfOk};
ghost use Rattle.link_ears.specs.Ear.{IsNewEar, counts_sum};

use crate::ear::Ear;
use crate::net::{Net, NetFault};
use crate::notes::{note_port, note_unopened};
use crate::tcp_ear::TcpEar;
use http_server::Log;
use ids::Items;
use std::alloc::Global;
use std::io::Stderr;
use std::net::{Ipv4Addr, Net as Network, TcpListener, TcpStream};

/// The ports of 127.0.0.1, over the network of a runtime.
#[derive(Drop)]
pub struct TcpNet<R> {
    rt: R,
    err: Stderr,
    libraries: usize,
    faults: u64,
    // The ports that it was asked for and the ears that came back, for proofs alone.
    asked: Log<u16, (u32, u32)>,
    back: Log<TcpEar, u64>,
}

impl<R> TcpNet<R> {
    /// A net over the network of this runtime, with no fault, which was asked for no port and to which no ear came back yet. It tells on this standard error what
    /// it opens, with how many libraries are served there, and what broke.
    pub fn new(rt: R, err: Stderr, libraries: usize) -> TcpNet<R>
        ensures none { (result.asked.items ≡ []) × (result.back.items ≡ []) }
        ensures faults { result.faults ≡ 0 }
    {
        TcpNet {
            rt,
            err,
            libraries,
            faults: 0,
            asked: Log::new(),
            back: Log::new(),
        }
    }

    /// How many faults were counted so far.
    pub fn faults(&self) -> u64
        ensures value { result ≡ self.now.faults }
    {
        self.faults
    }

    /// Notes that these ears came back, and adds their counts.
    fn note_back(&mut self, ears: &[TcpEar])
        ensures back { map (λ entry. entry.0) self.new.back.items ≡ map (λ entry. entry.0) self.old.back.items ++ ears.now }
        ensures faults { self.new.faults ≡ counts_sum self.old.faults (map (λ ear. ear.faults) ears.now) }
        ensures stays { self.new.asked ≡ self.old.asked }
    {
        for ear in ears {
            self.faults = self.faults.saturating_add(ear.faults());
            self.back = self.back.and(ear, &0);
        }
    }
}

impl<R: Network<Listener = TcpListener, Stream = TcpStream>> Net for TcpNet<R> {
    ghost use Rattle.std.specs.Prelude.{map, ⊤};

    type E = TcpEar;

    ghost hears = { λ ear port. ⊤ };

    ghost asked = { λ net. net.asked.items };

    ghost back = { λ net. map (λ entry. entry.0) net.back.items };

    ghost faults = { λ net. net.faults };

    fn ears(
        &mut self,
        alloc: Global,
        port: u16,
        workers: u32,
        connections: u32,
    ) -> Result<Items<TcpEar>, NetFault> {
        self.asked = self.asked.and(&port, &(workers, connections));
        match open(&self.rt, self.err, alloc, port, workers, connections) {
            Ok(ears) => {
                note_port(&mut self.err, alloc, port, self.libraries, workers);
                Ok(ears)
            }
            Err(NetFault::Link) => {
                self.faults = self.faults.saturating_add(1);
                Err(NetFault::Link)
            }
            Err(NetFault::NoMemory) => Err(NetFault::NoMemory),
        }
    }

    fn give_back(&mut self, ears: Items<TcpEar>)
        ensures asked { self.new.asked.items ≡ self.old.asked.items }
        ensures back { map (λ entry. entry.0) self.new.back.items ≡ map (λ entry. entry.0) self.old.back.items ++ ears }
        ensures faults { self.new.faults ≡ counts_sum self.old.faults (map (λ ear. ear.faults) ears) }
    {
        self.note_back(ears.slice());
    }
}

/// Opens the port, with so many ears.
fn open<R: Network<Listener = TcpListener, Stream = TcpStream>>(
    rt: &R,
    err: Stderr,
    alloc: Global,
    port: u16,
    workers: u32,
    connections: u32,
) -> Result<Items<TcpEar>, NetFault>
    ensures count { IfOk result (λ ears. length ears ≡ workers) }
    ensures fresh { IfOk result (All (λ ear. IsNewEar (record { gave = map (λ entry. entry.0) ear.gave.items; left = ear.left; over = ear.over }) ear.back.items ear.faults connections)) }
{
    match TcpListener::bind(rt, (Ipv4Addr::LOCALHOST, port)) {
        Ok(listener) => ears_of(alloc, &listener, err, workers, connections),
        Err(failure) => {
            let mut err = err;
            note_unopened(&mut err, alloc, port, &failure);
            Err(NetFault::Link)
        }
    }
}

/// So many ears of one listener.
fn ears_of(
    alloc: Global,
    listener: &TcpListener,
    err: Stderr,
    workers: u32,
    connections: u32,
) -> Result<Items<TcpEar>, NetFault>
    ensures count { IfOk result (λ ears. length ears ≡ workers) }
    ensures fresh { IfOk result (All (λ ear. IsNewEar (record { gave = map (λ entry. entry.0) ear.gave.items; left = ear.left; over = ear.over }) ear.back.items ear.faults connections)) }
{
    let mut ears = Items::new(alloc);
    for _made in 0..workers {
        let listener = match listener.try_clone() {
            Ok(listener) => listener,
            Err(_) => return Err(NetFault::Link),
        };
        if ears.push(TcpEar::new(listener, err, connections)).is_err() {
            return Err(NetFault::NoMemory);
        }
    }
    Ok(ears)
}
