// A net sheet and a cut sheet read, and the cut written again.
use cut::Cut;
use cut_sheet::CutRead;
use netlist::Netlist;
use run_text::{put_either, put_image, put_number, put_word};
use std::io;
use std::io::Write;

// Writes the cut into the first `room` bytes of a buffer of A5, and prints what came of it. Gives the image's length.
// net_run has it too: in run_text it would be public and take a closure that prints, of which nothing exact could be promised.
fn write<W: Write>(
    out: &mut W,
    net: &Netlist,
    cut: &Cut,
    room: usize,
    sheet: &[u8],
) -> io::Result<usize> {
    let mut buffer = [0xA5u8; 8192];
    let end = room.min(buffer.len());
    let w = cut_sheet::write_cut(net, cut, &mut buffer[..end]);
    put_number(out, u64::from(w.answer))?;
    put_number(out, w.place as u64)?;
    put_number(out, w.length as u64)?;
    put_image(out, &buffer, w.length, sheet)?;
    Ok(w.length)
}

// Writes the cut into a buffer that is long enough; then into one of just the image's length, which is none where it is refused;
// then into one a byte shorter. net_run has it too: in run_text it would be public and take a closure that prints, of which nothing exact could be promised.
fn write_back<W: Write>(out: &mut W, net: &Netlist, cut: &Cut, sheet: &[u8]) -> io::Result<()> {
    put_word(out, b"write")?;
    let length = write(out, net, cut, 8192, sheet)?;
    put_word(out, b"fit")?;
    write(out, net, cut, length, sheet)?;
    if 0 < length {
        put_word(out, b"short")?;
        write(out, net, cut, length - 1, sheet)?;
    }
    Ok(())
}

// Prints the sum over all places of a cut and its queues.
fn put_sum<W: Write>(out: &mut W, r: &CutRead) -> io::Result<()> {
    if crate::cells::blank(r) {
        put_word(out, b"zeros")
    } else {
        put_number(out, u64::from(crate::cells::sum(r)))
    }
}

// Prints the counts, the sum over all places and whether what stands past the counts is 0; and all, where it is little.
fn put_read<W: Write>(out: &mut W, r: &CutRead) -> io::Result<()> {
    crate::show::counts(out, r)?;
    put_sum(out, r)?;
    put_either(out, crate::cells::clean(r), b"clean", b"DIRTY")?;
    if (0 < r.cut.nodes) & (r.cut.nodes <= 32) & (r.queues.count <= 32) {
        crate::show::whole(out, r)?;
    }
    Ok(())
}

// Prints which sheet was read, the answer and its place.
fn put_answer<W: Write>(out: &mut W, sheet: &[u8], answer: u32, place: usize) -> io::Result<()> {
    put_word(out, sheet)?;
    put_number(out, u64::from(answer))?;
    put_number(out, place as u64)
}

// Reads both sheets and prints what came of it. What was read is changed and written.
pub fn both<W: Write>(out: &mut W, net: &[u8], cut: &[u8], changes: &[u8]) -> io::Result<()> {
    let n = net_sheet::read_net(net);
    put_answer(out, b"net", n.answer, n.place)?;
    let mut c = cut_sheet::read_cut(&n.net, cut);
    put_answer(out, b"cut", c.answer, c.place)?;
    put_read(out, &c)?;
    if c.answer == 0 {
        crate::change::all(&mut c.cut, changes);
        write_back(out, &n.net, &c.cut, cut)?;
    }
    Ok(())
}
