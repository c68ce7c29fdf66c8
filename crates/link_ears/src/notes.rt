//! Lines on standard error for who runs a server.
use std::alloc::Global;
use std::io;
use std::io::{Stderr, Write};
use system_edges::failure_words;
use worker_server::Served;

/// Tells that a port is open for so many libraries, with so many ears. A line that can't be made or written is left out.
pub(crate) fn note_port(
    err: &mut Stderr,
    alloc: Global,
    port: u16,
    libraries: usize,
    workers: u32,
) {
    if let Ok(line) = format!(in alloc;
        "seaf-server: listening on 127.0.0.1:{port}, libraries: {libraries}, workers: {workers}\n"
    ) {
        write(err, line.as_bytes());
    }
}

/// Tells why a port couldn't be opened.
pub(crate) fn note_unopened(err: &mut Stderr, alloc: Global, port: u16, failure: &io::Error) {
    let Ok(words) = failure_words(alloc, failure) else {
        return;
    };
    if let Ok(line) = format!(in alloc;
        "seaf-server: 127.0.0.1:{port}: opening the port: {}\n",
        words.as_str()
    ) {
        write(err, line.as_bytes());
    }
}

/// Tells that a connection ended by a fault, where it did.
pub(crate) fn note_end(err: &mut Stderr, how: Served) {
    match how {
        Served::ReadFault => write(
            err,
            b"seaf-server: a connection broke, or its client said nothing for too long\n",
        ),
        Served::WriteFault => write(
            err,
            b"seaf-server: a connection broke, or its client took nothing for too long\n",
        ),
        Served::NoMemory => write(err, b"seaf-server: no memory for a request or its reply\n"),
        _ => {}
    }
}

/// Tells that a port failed, so that one worker serves no more.
pub(crate) fn note_stop(err: &mut Stderr) {
    write(
        err,
        b"seaf-server: the port failed, and one of the workers has stopped\n",
    );
}

/// Writes a line, if it can be written.
fn write(err: &mut Stderr, line: &[u8]) {
    let _ = err.write_all(line);
}
