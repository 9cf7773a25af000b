// Runs the cut sheet's reader and writer and the label lookup on the cases of standard input, and prints a line for each.
// A case is a line: its name, the changes to make before writing ('-' for none), the net sheet in hexadecimal ('=' for that of the case
// before), the cut sheet in hexadecimal, and the nodes whose labels are looked up.
// tools/cut_vectors writes the cases and what is to be printed: at most 10,000 lines of at most 48,000 bytes, none of them empty.
#![tactic(auto)]

ghost use Rattle.std.specs.Prelude.{◌≤◌, length};

mod cells;
mod change;
mod names;
mod run;
mod show;

use run_text::{find, read_line, unhex};
use std::io;
use std::io::{Read, Write};

// Puts the net sheet of a case into `net`, and gives its length. '=' keeps what is there, so many bytes.
fn net_of(hex: &[u8], net: &mut [u8], before: usize) -> usize
    ensures { result ≤ length net.new }
{
    if hex == b"=".as_slice() {
        before.min(net.len())
    } else {
        unhex(hex, net)
    }
}

// The case of changes, a net sheet, a cut sheet in hexadecimal, and nodes.
fn run_sheets<W: Write>(
    out: &mut W,
    changes: &[u8],
    net: &[u8],
    hex: &[u8],
    nodes: &[u8],
) -> io::Result<()> {
    let mut cut = [0u8; 16384];
    let n = unhex(hex, &mut cut);
    run::both(out, net, &cut[..n], changes)?;
    names::all(out, net, &cut[..n], nodes)
}

// The case of a line: what it lacks is empty. Gives the net sheet's length.
fn run_line<W: Write>(
    out: &mut W,
    line: &[u8],
    net: &mut [u8],
    before: usize,
) -> io::Result<usize> {
    let mut words = line.splitn(4, |b| *b == b' ');
    out.write_all(words.next().unwrap_or(b""))?;
    out.write_all(b":")?;
    let changes = words.next().unwrap_or(b"");
    let n = net_of(words.next().unwrap_or(b""), net, before);
    let sheet = words.next().unwrap_or(b"");
    let end = find(sheet, 0, b' ');
    run_sheets(out, changes, &net[..n], &sheet[..end], &sheet[end..])?;
    out.write_all(b"\n")?;
    Ok(n)
}

// The cases of the input. network_run has it too: in run_text it would be public and take a closure that prints, of which nothing exact could be promised.
fn run_lines<R: Read, W: Write>(
    input: &mut R,
    out: &mut W,
    line: &mut [u8],
    net: &mut [u8],
) -> io::Result<()> {
    let mut n = 0;
    for _ in 0..10000 {
        let end = read_line(input, line)?;
        if end == 0 {
            break;
        }
        n = run_line(out, &line[..end], net, n)?;
    }
    Ok(())
}

// An error of standard input or output ends the program with it: what was printed before stands, and the cases after it are left out.
fn main(rt: HostRuntime) -> io::Result<()> {
    let mut line = [0u8; 48000];
    let mut net = [0u8; 20480];
    run_lines(&mut rt.stdin(), &mut io::writer(&rt), &mut line, &mut net)
}
