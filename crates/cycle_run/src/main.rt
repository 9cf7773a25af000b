// Runs the plain stepper on the cases of standard input, and prints a line for each.
// A case is a line: its name, the cycles, the places of the lent output list, the net sheet in hexadecimal, and the inputs of all cycles.
// tools/cycle_vectors writes the cases and what is to be printed.
#![tactic(auto)]

mod lists;
mod run;

use run_text::{find, number32, put_number, put_word, unhex};
use std::io;
use std::io::Write;

// The case of a sheet and its inputs, as bytes and numbers.
fn run_sheet<W: Write>(
    out: &mut W,
    sheet: &[u8],
    cycles: u32,
    room: u32,
    ins: &[u32],
) -> io::Result<()> {
    let r = net_sheet::read_net(sheet);
    if r.answer == 0 {
        let case = run::Case {
            net: &r.net,
            cycles,
            ins,
        };
        run::both(out, &case, room as usize)
    } else {
        put_word(out, b"read")?;
        put_number(out, u64::from(r.answer))?;
        put_number(out, r.place as u64)
    }
}

// The case of a sheet and its inputs, as text.
fn run_words<W: Write>(
    out: &mut W,
    hex: &[u8],
    cycles: u32,
    room: u32,
    values: &[u8],
) -> io::Result<()> {
    let mut sheet = [0u8; 20480];
    let mut ins = [0u32; 2048];
    let n = unhex(hex, &mut sheet);
    let m = lists::numbers(values, &mut ins);
    run_sheet(out, &sheet[..n], cycles, room, &ins[..m])
}

// The case of a line: what it lacks is empty.
fn run_line<W: Write>(out: &mut W, line: &[u8]) -> io::Result<()> {
    let mut words = line.splitn(4, |b| *b == b' ');
    out.write_all(words.next().unwrap_or(b""))?;
    out.write_all(b":")?;
    let cycles = number32(words.next().unwrap_or(b""));
    let room = number32(words.next().unwrap_or(b""));
    let rest = words.next().unwrap_or(b"");
    let end = find(rest, 0, b' ');
    run_words(out, &rest[..end], cycles, room, &rest[end..])?;
    out.write_all(b"\n")
}

// The cases of standard input, each ended by a line end. An error of standard input or output ends the program with it: what was printed before stands, and
// the cases after it are left out. net_run has it too: in run_text it would be public and take a closure that prints, of which nothing exact could be promised.
fn main(rt: HostRuntime) -> io::Result<()> {
    let mut input = [0u8; 400000];
    let n = run_text::read_full(&mut rt.stdin(), &mut input)?;
    let mut out = io::writer(&rt);
    for line in input[..n].split_inclusive(|b| *b == b'\n') {
        if let Some(line) = line.strip_suffix(b"\n") {
            run_line(&mut out, line)?;
        }
    }
    Ok(())
}
