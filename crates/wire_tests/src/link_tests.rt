//! Links in memory, and the buffer over them.
use http_front::{Buffer, FillFault, Link, MemoryLink, MemorySink, Sink};
use ids::{Bytes, Items};
use std::alloc::{AllocError, Global};

/// A link of this input in pieces of a byte at least.
fn link(alloc: Global, piece: usize, room: usize, fails: &[u64]) -> Result<MemoryLink, AllocError> {
    let input = Bytes::copy(alloc, b"one and two")?;
    MemoryLink::new(alloc, input, piece.max(1), room, Items::copy(alloc, fails)?)
}

/// Twenty fills of a buffer.
fn fills(buffer: &mut Buffer, link: &mut MemoryLink) -> bool {
    for _ in 0..20 {
        if buffer.fill(link).is_err() {
            return false;
        }
    }
    true
}

/// Whether a buffer then holds the input, and nothing more comes.
fn holds_input(buffer: &mut Buffer, link: &mut MemoryLink) -> bool {
    fills(buffer, link)
        && buffer.front() == b"one and two".as_slice()
        && matches!(buffer.fill(link), Ok(0))
}

/// Whether it holds the rest after four bytes.
fn skips_four(buffer: &mut Buffer) -> bool {
    let size = buffer.len();
    buffer.skip(size.min(4));
    buffer.front() == b"and two".as_slice()
}

/// Whether it is empty after the rest.
fn skips_all(buffer: &mut Buffer) -> bool {
    let size = buffer.len();
    buffer.skip(size);
    buffer.is_empty()
}

/// Whether a buffer holds what comes in pieces of this size, until it is skipped.
fn holds_pieces(alloc: Global, buffer: &mut Buffer, piece: usize) -> Result<bool, AllocError> {
    let mut link = link(alloc, piece, 0, &[])?;
    Ok(holds_input(buffer, &mut link) && skips_four(buffer) && skips_all(buffer))
}

#[test]
fn a_buffer_holds_the_input_whatever_pieces_it_comes_in(rt: HostRuntime) -> Result<(), AllocError> {
    let mut buffer = Buffer::new(rt.alloc())?;
    for piece in [1, 6, 100] {
        assert!(rt; holds_pieces(rt.alloc(), &mut buffer, piece)?, "at {piece}");
    }
    Ok(())
}

/// Whether the first of these is given, the second lost, and of the third what fits.
fn gives_the_first(link: &mut MemoryLink) -> bool {
    link.give(b"first").is_ok()
        && link.give(b"lost").is_err()
        && link.give(b" then more").is_err()
        && link.given() == b"first then".as_slice()
}

fn takes_three(link: &mut MemoryLink) -> bool {
    let mut room = [0u8; 3];
    matches!(link.take(&mut room), Ok(3)) && room.as_slice() == b"one".as_slice()
}

/// Whether a fill that is to fail leaves the buffer empty.
fn fails_to_fill(buffer: &mut Buffer, link: &mut MemoryLink) -> bool {
    matches!(buffer.fill(link), Err(FillFault::Link)) && buffer.is_empty()
}

/// Whether the calls of a link that are to fail move nothing.
fn fails_in_place(alloc: Global, link: &mut MemoryLink) -> Result<bool, AllocError> {
    let mut buffer = Buffer::new(alloc)?;
    Ok(fails_to_fill(&mut buffer, link) && gives_the_first(link) && takes_three(link))
}

#[test]
fn calls_that_are_to_fail_move_nothing(rt: HostRuntime) -> Result<(), AllocError> {
    let mut link = link(rt.alloc(), 4, 10, &[0, 2])?;
    assert!(rt; fails_in_place(rt.alloc(), &mut link)?);
    Ok(())
}

fn puts_the_first(sink: &mut MemorySink) -> bool {
    sink.put_all(b"line").is_ok()
        && sink.put_all(b"lost").is_err()
        && sink.put_all(b"and more").is_err()
        && sink.given() == b"linean".as_slice()
}

#[test]
fn a_sink_keeps_what_fits(rt: HostRuntime) -> Result<(), AllocError> {
    let fails = Items::copy(rt.alloc(), &[1])?;
    let mut sink = MemorySink::new(rt.alloc(), 6, fails)?;
    assert!(rt; puts_the_first(&mut sink));
    Ok(())
}
