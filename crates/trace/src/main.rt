// `trace`: opens the sheets `net.sheet` and `cut.sheet` of the folder that it is run in, plays the commands of standard input, and prints what comes of them.
// What a line says, what is printed for it and what a file counts as is proved in `lines` and `traces`; here bytes are moved.
#![tactic(auto)]

ghost use Rattle.std.specs.Prelude.{◌≤◌, length};

use lines::Reading;
use plans::Plan;
use spots::Network;
use std::io::Read;
use std::rt::Files;
use std::{fs, io};

// The bytes of a sheet's file, put into `sheet`, which has room for one byte more than a sheet's file may have.
fn read_sheet(rt: &impl Files, path: &str, sheet: &mut [u8]) -> usize
    ensures { result ≤ length sheet.new }
{
    let Ok(mut file) = fs::open(rt, path) else {
        return lines::sheet_bytes(false, 0);
    };
    match run_text::read_full(&mut file, sheet) {
        Ok(n) => lines::sheet_bytes(true, n),
        Err(_) => lines::sheet_bytes(false, 0),
    }
}

// Plays the bytes of a block and writes out the answers, and gives what has been read of the line that it ends in. It goes on by what each block took.
fn play(
    rt: &impl Print,
    plan: &Plan,
    network: &mut Network,
    reading: Reading,
    input: &[u8],
    out: &mut [u8],
) -> io::Result<Reading> {
    let mut line = reading;
    let mut rest = input;
    while !rest.is_empty() {
        let block = traces::block(plan, network, line, rest, out);
        rt.write_all(&out[..block.wrote])?;
        line = block.reading;
        if block.read == 0 {
            break;
        }
        rest = &rest[block.read..];
    }
    Ok(line)
}

// Reads standard input block by block and plays it, up to its end or to a read that fails; a last line may lack its line end.
fn play_all(rt: &(impl Input + Print), plan: &Plan, network: &mut Network) -> io::Result<()> {
    let mut input = [0u8; 65536];
    let mut out = [0u8; 65536];
    let mut reader = rt.reader();
    let mut line = lines::no_bytes();
    let mut ended = Ok(());
    for _ in 0..u64::MAX {
        match reader.read(&mut input) {
            Ok(0) => break,
            Ok(n) => line = play(rt, plan, network, line, &input[..n], &mut out)?,
            Err(e) => {
                ended = Err(e);
                break;
            }
        }
    }
    if line.place != 0 {
        play(rt, plan, network, line, b"\n", &mut out)?;
    }
    ended
}

// Opens two sheets, prints the line of the opening, and plays standard input where they open.
fn run(rt: &(impl Input + Print), net: &[u8], cut: &[u8]) -> io::Result<()> {
    let mut r = opens::open(net, cut, 4000000000);
    let mut out = [0u8; 120];
    if r.answer != 0 {
        let n = lines::put_refused(&mut out, r.answer, r.place);
        return rt.write_all(&out[..n]);
    }
    let n = lines::put_opened(
        &mut out,
        r.plan.nodes,
        r.plan.parts,
        r.plan.queues,
        r.plan.rules,
    );
    rt.write_all(&out[..n])?;
    play_all(rt, &r.plan, &mut r.network)
}

fn main(rt: HostRuntime) -> io::Result<()> {
    let mut net = [0u8; 32769];
    let mut cut = [0u8; 32769];
    let n = read_sheet(&rt, "net.sheet", &mut net);
    let m = read_sheet(&rt, "cut.sheet", &mut cut);
    run(&rt, &net[..n], &cut[..m])
}
