// Runs the net sheet's reader and writer on the cases of standard input, and prints a line for each.
// A case is a line: its name, the changes to make before writing ('-' for none), and the sheet in hexadecimal.
// tools/net_vectors writes the cases and what is to be printed.
#![tactic(auto)]

mod change;
mod digest;

use net_sheet::NetRead;
use netlist::Netlist;
use run_text::{put_image, put_number, put_word, unhex};
use std::io;
use std::io::Write;

// Writes the netlist into the first `room` bytes of a buffer of A5, and prints what came of it. Gives the image's length.
// cut_run has it too: in run_text it would be public and take a closure that prints, of which nothing exact could be promised.
fn write<W: Write>(out: &mut W, net: &Netlist, room: usize, sheet: &[u8]) -> io::Result<usize> {
    let mut buffer = [0xA5u8; 20480];
    let end = room.min(buffer.len());
    let w = net_sheet::write_net(net, &mut buffer[..end]);
    put_number(out, u64::from(w.answer))?;
    put_number(out, w.place as u64)?;
    put_number(out, w.length as u64)?;
    put_image(out, &buffer, w.length, sheet)?;
    Ok(w.length)
}

// Writes the netlist into a buffer that is long enough; then into one of just the image's length, which is none where it is refused;
// then into one a byte shorter. cut_run has it too: in run_text it would be public and take a closure that prints, of which nothing exact could be promised.
fn write_back<W: Write>(out: &mut W, net: &Netlist, sheet: &[u8]) -> io::Result<()> {
    put_word(out, b"write")?;
    let length = write(out, net, 20480, sheet)?;
    put_word(out, b"fit")?;
    write(out, net, length, sheet)?;
    if 0 < length {
        put_word(out, b"short")?;
        write(out, net, length - 1, sheet)?;
    }
    Ok(())
}

// Prints the answer, its place, and the counts of the netlist that was read.
fn put_read<W: Write>(out: &mut W, r: &NetRead) -> io::Result<()> {
    put_word(out, b"read")?;
    put_number(out, u64::from(r.answer))?;
    put_number(out, r.place as u64)?;
    put_number(out, r.net.nodes as u64)?;
    put_number(out, r.net.outputs as u64)?;
    put_number(out, r.net.labels as u64)
}

// Prints the netlist's digest.
fn put_digest<W: Write>(out: &mut W, d: digest::Digest) -> io::Result<()> {
    if d.bits == 0 {
        put_word(out, b"zeros")
    } else {
        put_number(out, u64::from(d.sum))
    }
}

// Reads the sheet and prints the answer, the counts and the netlist's digest. What was read is changed and written.
fn run<W: Write>(out: &mut W, sheet: &[u8], changes: &[u8]) -> io::Result<()> {
    let mut r = net_sheet::read_net(sheet);
    put_read(out, &r)?;
    put_digest(out, digest::of(&r.net))?;
    if r.answer == 0 {
        change::all(&mut r.net, changes);
        write_back(out, &r.net, sheet)?;
    }
    Ok(())
}

// The case of a sheet that is still in hexadecimal.
fn run_hex<W: Write>(out: &mut W, hex: &[u8], changes: &[u8]) -> io::Result<()> {
    let mut bytes = [0u8; 20480];
    let n = unhex(hex, &mut bytes);
    run(out, &bytes[..n], changes)
}

// The case of a line: its name, the changes and the sheet, as far as they are there.
fn run_line<W: Write>(out: &mut W, line: &[u8]) -> io::Result<()> {
    let mut words = line.splitn(3, |b| *b == b' ');
    out.write_all(words.next().unwrap_or(b""))?;
    out.write_all(b":")?;
    if let (Some(changes), Some(hex)) = (words.next(), words.next()) {
        run_hex(out, hex, changes)?;
    }
    out.write_all(b"\n")
}

// The cases of standard input, each ended by a line end. An error of standard input or output ends the program with it: what was printed before stands, and
// the cases after it are left out. cycle_run has it too: in run_text it would be public and take a closure that prints, of which nothing exact could be promised.
fn main(rt: HostRuntime) -> io::Result<()> {
    let mut input = [0u8; 400000];
    let n = run_text::read_full(&mut rt.stdin(), &mut input)?;
    let mut out = io::writer(&rt);
    for line in input[..n].split_inclusive(|b| *b == b'\n') {
        if let Some(line) = line.strip_suffix(b"\n") {
            run_line(&mut out, line)?;
        }
    }
    Ok(())
}
