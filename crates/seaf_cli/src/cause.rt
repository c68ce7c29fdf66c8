//! Why a call of a folder or a connection failed.
use local_folder::{DirectoryCalls, LocalFolder};
use std::io;
use tcp_links::{TcpDial, TcpLink};

/// What keeps the failure of its last call.
pub trait Cause {
    /// The failure of the last call, if that failed.
    fn cause(&self) -> Option<io::Error>;
}

impl<C: DirectoryCalls + Drop> Cause for LocalFolder<C> {
    fn cause(&self) -> Option<io::Error> {
        self.failure()
    }
}

impl Cause for TcpLink {
    fn cause(&self) -> Option<io::Error> {
        self.failure()
    }
}

impl<R> Cause for TcpDial<R> {
    fn cause(&self) -> Option<io::Error> {
        self.failure()
    }
}
