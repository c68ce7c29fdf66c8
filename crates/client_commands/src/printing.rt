//! What a command prints.
ghost use Rattle.std.specs.Prelude.{◌≡◌, flat_map, IfOk};
ghost use Rattle.client_words.specs.Lines.{line_text};
ghost use Rattle.client_commands.specs.Printing.{Prints, PrintsBy, Puts, PutsBy, line_printed, lines_printed, no_memory_printed};
ghost use Rattle.client_commands.specs.Views.{sink_view};

use client_words::Line;
use http_front::{LinkFailed, Sink};
use std::alloc::{AllocError, Global};

/// Puts these lines, with status 0. Where there is no memory for them the line `seaf-cli: no memory` is put, with status 3;
/// where the sink fails the status is 1.
pub(crate) fn print_lines<O: Sink>(alloc: Global, out: &mut O, lines: &[Line]) -> u8
    ensures prints { Prints (lines_printed lines.now) (sink_view O.given O.faults out.old) (sink_view O.given O.faults out.new) result }
{
    match lines_text(alloc, lines) {
        Ok(text) => put(out, text.as_slice(), 0),
        Err(AllocError) => print_no_memory(out),
    }
}

/// Puts a line, and gives its status; as above where there is no memory for it, and where the sink fails.
pub(crate) fn print_line<O: Sink>(alloc: Global, out: &mut O, line: &Line) -> u8
    ensures prints { Prints (line_printed line.now) (sink_view O.given O.faults out.old) (sink_view O.given O.faults out.new) result }
{
    match line.text(alloc) {
        Ok(text) => put(out, text.as_slice(), line.status()),
        Err(AllocError) => print_no_memory(out),
    }
}

/// Puts the line that memory was wanting.
pub(crate) fn print_no_memory<O: Sink>(out: &mut O) -> u8
    ensures prints { Puts no_memory_printed (sink_view O.given O.faults out.old) (sink_view O.given O.faults out.new) result }
{
    put(out, b"seaf-cli: no memory\n", 3)
}

/// Puts a text, and gives the status.
pub(crate) fn put<O: Sink>(out: &mut O, text: &[u8], status: u8) -> u8
    ensures prints { Puts (record { text = text.now; status = status }) (sink_view O.given O.faults out.old) (sink_view O.given O.faults out.new) result }
{
    match out.put_all(text) {
        Ok(()) => status,
        Err(_) => 1,
    }
}

/// Puts a line, or that memory was wanting where there is none for it, and tells its status. The sink's fault is handed on.
pub(crate) fn try_line<O: Sink>(alloc: Global, out: &mut O, line: &Line) -> Result<u8, LinkFailed>
    ensures prints { PrintsBy (line_printed line.now) (sink_view O.given O.faults out.old) (sink_view O.given O.faults out.new) result }
{
    match line.text(alloc) {
        Ok(text) => try_text(out, text.as_slice(), line.status()),
        Err(AllocError) => try_text(out, b"seaf-cli: no memory\n", 3),
    }
}

/// Puts a text, and tells the status.
fn try_text<O: Sink>(out: &mut O, text: &[u8], status: u8) -> Result<u8, LinkFailed>
    ensures prints { PutsBy (record { text = text.now; status = status }) (sink_view O.given O.faults out.old) (sink_view O.given O.faults out.new) result }
{
    match out.put_all(text) {
        Ok(()) => Ok(status),
        Err(failed) => Err(failed),
    }
}

/// The texts of lines, one behind another.
fn lines_text(alloc: Global, lines: &[Line]) -> Result<Vec<u8>, AllocError>
    ensures value { IfOk result (λ text. text.items ≡ flat_map line_text lines.now) }
{
    let mut all = Vec::new(alloc);
    for line in lines {
        let text = line.text(alloc)?;
        all.extend_from_slice(text.as_slice())?;
    }
    Ok(all)
}
