// A cut and its queues, number by number.
use cut_sheet::CutRead;
use queues::Queues;
use run_text::{put_number, put_word};
use std::io;
use std::io::Write;

// Prints the first n bytes.
fn put_bytes<W: Write>(out: &mut W, cells: &[u8], n: usize) -> io::Result<()> {
    for x in cells.iter().take(n) {
        put_number(out, u64::from(*x))?;
    }
    Ok(())
}

// Prints what kind of queue q is, by the counts.
fn put_kind<W: Write>(out: &mut W, q: usize, inputs: usize, channels: usize) -> io::Result<()> {
    if q < inputs {
        put_word(out, b"in")
    } else if q - inputs < channels {
        put_word(out, b"ch")
    } else {
        put_word(out, b"out")
    }
}

// Prints the queues by number: kind, node, the part that puts, the part that takes.
fn put_queues<W: Write>(out: &mut W, queues: &Queues) -> io::Result<()> {
    for q in 0..queues.count.min(512) {
        put_kind(out, q, queues.inputs, queues.channels)?;
        put_number(out, u64::from(queues.node[q]))?;
        put_number(out, u64::from(queues.from[q]))?;
        put_number(out, u64::from(queues.into[q]))?;
    }
    Ok(())
}

// Prints the nodes among the first n that have a queue, and their queues.
fn put_map<W: Write>(out: &mut W, word: &[u8], map: &[u16], n: usize) -> io::Result<()> {
    put_word(out, word)?;
    for (i, queue) in map.iter().enumerate().take(n) {
        if *queue != 512 {
            put_number(out, i as u64)?;
            put_number(out, u64::from(*queue))?;
        }
    }
    Ok(())
}

// Prints the counts.
pub fn counts<W: Write>(out: &mut W, r: &CutRead) -> io::Result<()> {
    put_number(out, r.cut.nodes as u64)?;
    put_number(out, r.cut.queues as u64)?;
    put_number(out, r.cut.labels as u64)?;
    put_number(out, r.queues.parts as u64)?;
    put_number(out, r.queues.count as u64)?;
    put_number(out, r.queues.inputs as u64)?;
    put_number(out, r.queues.channels as u64)?;
    put_number(out, r.queues.outputs as u64)
}

// Prints all.
pub fn whole<W: Write>(out: &mut W, r: &CutRead) -> io::Result<()> {
    put_word(out, b"parts")?;
    put_bytes(out, &r.cut.part, r.cut.nodes)?;
    put_word(out, b"depths")?;
    put_bytes(out, &r.cut.depth, r.cut.queues)?;
    put_word(out, b"queues")?;
    put_queues(out, &r.queues)?;
    put_map(out, b"input", &r.queues.input, r.cut.nodes)?;
    put_map(out, b"a", &r.queues.a, r.cut.nodes)?;
    put_map(out, b"b", &r.queues.b, r.cut.nodes)?;
    put_map(out, b"c", &r.queues.c, r.cut.nodes)
}
