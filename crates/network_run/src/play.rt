// The commands of a case, played one after the other on an opened network.
use crate::lists::Lists;
use crate::words::{Command, command_of};
use crate::{calls, cells};
use plans::Plan;
use run_text::{put_number, put_word};
use spots::Network;
use std::io;
use std::io::Write;

fn known(letter: u8) -> bool {
    b"fdryantclo".contains(&letter)
}

fn put_sum<W: Write>(out: &mut W, network: &Network) -> io::Result<()> {
    put_number(out, u64::from(cells::sum(network)))
}

// Plays a command, and prints its letter, what came of it, and the sum of the state. An entry for an order's lists prints nothing, and an order empties them.
fn command<W: Write>(
    out: &mut W,
    plan: &Plan,
    network: &mut Network,
    lists: &mut Lists,
    c: Command,
) -> io::Result<()> {
    if c.letter == b'l' {
        lists.push(c.x, c.y);
        return Ok(());
    }
    put_word(out, &[c.letter])?;
    calls::play(out, plan, network, lists, c)?;
    put_sum(out, network)?;
    if c.letter == b'o' {
        *lists = Lists::empty();
    }
    Ok(())
}

// Plays the commands of a text, up to one that is unknown. Each is three words, as far as they are there, and its letter is a byte: there are no more commands
// than bytes.
fn commands<W: Write>(
    out: &mut W,
    plan: &Plan,
    network: &mut Network,
    text: &[u8],
) -> io::Result<()> {
    let mut lists = Lists::empty();
    let mut words = text.split(|b| *b == b' ');
    for _ in 0..text.len() {
        let letter = words.next().unwrap_or(b"");
        let x = words.next().unwrap_or(b"");
        let y = words.next().unwrap_or(b"");
        match command_of(letter, x, y) {
            Some(c) if known(c.letter) => command(out, plan, network, &mut lists, c)?,
            _ => break,
        }
    }
    Ok(())
}

// Prints the plan's counts and the sum of the fresh state, and plays the commands.
pub fn all<W: Write>(
    out: &mut W,
    plan: &Plan,
    network: &mut Network,
    text: &[u8],
) -> io::Result<()> {
    put_number(out, plan.nodes as u64)?;
    put_number(out, plan.parts as u64)?;
    put_number(out, plan.queues as u64)?;
    put_number(out, plan.rules as u64)?;
    put_word(out, b"s")?;
    put_sum(out, network)?;
    commands(out, plan, network, text)
}
