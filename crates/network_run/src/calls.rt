// The network's calls, and the words that are printed of them.
use crate::lists::Lists;
use crate::words::Command;
use plans::Plan;
use refusals::Refusal;
use run_text::put_number;
use spots::Network;
use std::io;
use std::io::Write;

fn put_one<W: Write>(out: &mut W, answer: u32) -> io::Result<()> {
    put_number(out, u64::from(answer))
}

// Prints a call's answer and its value, which is 0 where the call is refused.
fn put_got<W: Write>(out: &mut W, got: Result<u32, Refusal>) -> io::Result<()> {
    match got {
        Ok(value) => {
            put_one(out, 0)?;
            put_one(out, value)
        }
        Err(refusal) => {
            put_one(out, refusal.number())?;
            put_one(out, 0)
        }
    }
}

// A round.
fn round<W: Write>(out: &mut W, plan: &Plan, network: &mut Network) -> io::Result<()> {
    put_one(out, 0)?;
    put_number(out, rounds::round(plan, network) as u64)
}

// A run of so many rounds.
fn run<W: Write>(out: &mut W, plan: &Plan, network: &mut Network, most: u32) -> io::Result<()> {
    let got = rounds::run(plan, network, most);
    put_one(out, got.answer)?;
    put_number(out, got.rounds as u64)?;
    put_number(out, got.firings as u64)
}

// An order on a list of so many places, at most 64. What that list holds afterwards is printed as a sum.
fn order<W: Write>(
    out: &mut W,
    plan: &Plan,
    network: &mut Network,
    lists: &Lists,
    room: u32,
) -> io::Result<()> {
    let mut lent = [7777u32; 64];
    let end = (room as usize).min(lent.len());
    let got = orders::order(
        plan,
        network,
        lists.kinds.numbers(),
        lists.indexes.numbers(),
        lists.values.numbers(),
        &mut lent[..end],
    );
    put_one(out, got.answer)?;
    put_number(out, got.feeds as u64)?;
    put_number(out, got.drains as u64)?;
    put_number(out, got.firings as u64)?;
    put_one(out, crate::cells::first_sum(&lent, room as usize))
}

// Plays a command, and prints what came of it: by a match on the letter, which is what a case's text has; a table of closures would be no plainer.
pub fn play<W: Write>(
    out: &mut W,
    plan: &Plan,
    network: &mut Network,
    lists: &Lists,
    c: Command,
) -> io::Result<()> {
    match c.letter {
        b'f' => put_one(out, refusals::answer(moves::feed(plan, network, c.x, c.y))),
        b'd' => put_got(out, moves::drain(plan, network, c.x)),
        b'r' => put_one(out, refusals::answer(rounds::fire(plan, network, c.x))),
        b'y' => put_one(out, refusals::answer(rounds::ready(plan, network, c.x))),
        b'a' => round(out, plan, network),
        b'n' => run(out, plan, network, c.x),
        b't' => put_got(out, moves::tokens(plan, network, c.x)),
        b'c' => put_got(out, moves::finished(plan, network, c.x)),
        _ => order(out, plan, network, lists, c.x),
    }
}
