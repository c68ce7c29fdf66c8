//! Why a command was not done, and the line that tells it.
ghost use Rattle.std.specs.Prelude.{◌≡◌};
ghost use Rattle.library_server.specs.Lines.{fault_of_make, fault_of_not_added, fault_of_not_made, fault_of_not_brought, fault_of_not_started, fault_of_shelf, fault_of_start, fault_of_store, fault_of_token, fault_of_tree};

use depot::{MakeFault, StartFault, TokenFault};
use library_state::StateKey;
use object_graph::TreeFault;
use object_store::{ShelfFailed, StoreFault};
use server_words::Fault;

/// Why a library was not made.
#[derive(Clone, Copy, Debug, PartialEq, Eq)]
pub enum NotMade {
    /// What libraries are kept in failed, or had no memory.
    Storage(ShelfFailed),
    /// The library is there.
    Exists,
    /// It could not be made on its shelf.
    Refused(MakeFault),
}

/// Why the library of a shelf was not started.
#[derive(Debug, Drop)]
pub enum NotStarted {
    /// It could not be started.
    Fault(StartFault),
    /// It is another library than the one that was named.
    Other,
}

/// Why the library that a command names was not brought from its place and started.
#[derive(Debug, Drop)]
pub enum NotBrought {
    /// What libraries are kept in failed, or had no memory.
    Storage(ShelfFailed),
    /// The library is not there.
    Absent,
    /// It was not started from its shelf.
    Refused(NotStarted),
    /// The library, which was not there and is in memory, was not made.
    Unmade(NotMade),
}

/// Why a token was not added.
#[derive(Debug, Drop)]
pub enum NotAdded {
    /// The library was not brought.
    Unbrought(NotBrought),
    /// The library refused it.
    Refused(TokenFault),
}

impl NotMade {
    /// As it is printed.
    pub fn fault(self) -> Fault
        ensures value { result ≡ fault_of_not_made self }
    {
        match self {
            NotMade::Storage(failed) => fault_of_shelf(failed),
            NotMade::Exists => Fault::LibraryExists,
            NotMade::Refused(fault) => fault_of_make(fault),
        }
    }
}

impl NotBrought {
    /// As it is printed.
    pub fn fault(self) -> Fault
        ensures value { result ≡ fault_of_not_brought self }
    {
        match self {
            NotBrought::Storage(failed) => fault_of_shelf(failed),
            NotBrought::Absent => Fault::NoLibrary,
            NotBrought::Refused(why) => fault_of_not_started(why),
            NotBrought::Unmade(fault) => fault.fault(),
        }
    }
}

impl NotAdded {
    /// As it is printed.
    pub fn fault(self) -> Fault
        ensures value { result ≡ fault_of_not_added self }
    {
        match self {
            NotAdded::Unbrought(fault) => fault.fault(),
            NotAdded::Refused(fault) => fault_of_token(fault),
        }
    }
}

fn fault_of_shelf(failed: ShelfFailed) -> Fault
    ensures value { result ≡ fault_of_shelf failed }
{
    match failed {
        ShelfFailed::Shelf => Fault::Store,
        ShelfFailed::NoMemory => Fault::NoMemory,
    }
}

/// A store's `Wrong` comes to no command: each object that a command puts is a commit.
fn fault_of_store(fault: StoreFault) -> Fault
    ensures value { result ≡ fault_of_store fault }
{
    match fault {
        StoreFault::Taken(id) => Fault::Taken(id),
        StoreFault::Wrong(got) => Fault::Damaged(got),
        StoreFault::Damaged { want, got } => {
            let _ = got;
            Fault::Damaged(want)
        }
        StoreFault::Shelf => Fault::Store,
        StoreFault::NoMemory => Fault::NoMemory,
    }
}

fn fault_of_make(fault: MakeFault) -> Fault
    ensures value { result ≡ fault_of_make fault }
{
    match fault {
        MakeFault::HasState => Fault::LibraryExists,
        MakeFault::Store(fault) => fault_of_store(fault),
    }
}

fn fault_of_start(fault: StartFault) -> Fault
    ensures value { result ≡ fault_of_start fault }
{
    match fault {
        StartFault::NoState => Fault::NoState,
        StartFault::BadState(key) => Fault::BadState(key),
        StartFault::Worn => Fault::Worn,
        StartFault::Walk(fault) => fault_of_tree(&fault),
        StartFault::Store(fault) => fault_of_store(fault),
    }
}

/// Of another library's state text the check of the library's id is told.
fn fault_of_not_started(why: NotStarted) -> Fault
    ensures value { result ≡ fault_of_not_started why }
{
    match why {
        NotStarted::Fault(fault) => fault_of_start(fault),
        NotStarted::Other => Fault::BadState(StateKey::Lib),
    }
}

fn fault_of_tree(fault: &TreeFault) -> Fault
    ensures value { result ≡ fault_of_tree fault.now }
{
    match fault {
        TreeFault::Incomplete(key) => Fault::Incomplete(*key),
        TreeFault::Unreadable(key) => Fault::Unreadable(*key),
        TreeFault::WrongKind(id) => Fault::WrongKind(*id),
        TreeFault::WrongSize(id) => Fault::WrongSize(*id),
        TreeFault::TooDeep(_) => Fault::TooDeep,
        TreeFault::TooMany(_) => Fault::TooMany,
    }
}

fn fault_of_token(fault: TokenFault) -> Fault
    ensures value { result ≡ fault_of_token fault }
{
    match fault {
        TokenFault::SecretTaken => Fault::SecretTaken,
        TokenFault::Full => Fault::TokensFull,
        TokenFault::Store(fault) => fault_of_store(fault),
    }
}
