// Runs the network's calls on the cases of standard input, and prints a line for each.
// A case is a line: its name, the cycle limit, the net sheet and the cut sheet in hexadecimal ('-' for an empty one), and then the commands, each a letter
// and two numbers.
// tools/network_vectors writes the cases and what is to be printed: at most 10,000 lines of at most 60,000 bytes, none of them empty.
#![tactic(auto)]

mod calls;
mod cells;
mod lists;
mod play;
mod words;

use run_text::{number32, put_number, put_word, read_line, unhex};
use std::io;
use std::io::{Read, Write};

// The case of a limit, two sheets, and commands.
fn run_sheets<W: Write>(
    out: &mut W,
    limit: u32,
    net: &[u8],
    cut: &[u8],
    commands: &[u8],
) -> io::Result<()> {
    let mut r = opens::open(net, cut, limit);
    put_word(out, b"open")?;
    put_number(out, u64::from(r.answer))?;
    if r.answer == 0 {
        play::all(out, &r.plan, &mut r.network, commands)
    } else {
        put_number(out, r.place as u64)
    }
}

// The case of a limit, two sheets in hexadecimal, and commands.
fn run_hex<W: Write>(
    out: &mut W,
    limit: u32,
    net_hex: &[u8],
    cut_hex: &[u8],
    commands: &[u8],
) -> io::Result<()> {
    let mut net = [0u8; 20480];
    let mut cut = [0u8; 16384];
    let n = unhex(net_hex, &mut net);
    let m = unhex(cut_hex, &mut cut);
    run_sheets(out, limit, &net[..n], &cut[..m], commands)
}

// The case of a line: what it lacks is empty.
fn run_line<W: Write>(out: &mut W, line: &[u8]) -> io::Result<()> {
    let mut words = line.splitn(5, |b| *b == b' ');
    out.write_all(words.next().unwrap_or(b""))?;
    out.write_all(b":")?;
    let limit = number32(words.next().unwrap_or(b""));
    let net_hex = words.next().unwrap_or(b"");
    let cut_hex = words.next().unwrap_or(b"");
    let commands = words.next().unwrap_or(b"");
    run_hex(out, limit, net_hex, cut_hex, commands)?;
    out.write_all(b"\n")
}

// The cases of the input. cut_run has it too: in run_text it would be public and take a closure that prints, of which nothing exact could be promised.
fn run_lines<R: Read, W: Write>(input: &mut R, out: &mut W, line: &mut [u8]) -> io::Result<()> {
    for _ in 0..10000 {
        let end = read_line(input, line)?;
        if end == 0 {
            break;
        }
        run_line(out, &line[..end])?;
    }
    Ok(())
}

// An error of standard input or output ends the program with it: what was printed before stands, and the cases after it are left out.
fn main(rt: HostRuntime) -> io::Result<()> {
    let mut line = [0u8; 60000];
    run_lines(&mut rt.stdin(), &mut io::writer(&rt), &mut line)
}
