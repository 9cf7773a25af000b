// Labels of nodes: their bytes, and where in the sheets such bytes stand first.
use run_text::{put_hex, put_number, put_word};
use std::io;
use std::io::Write;

// The first place where the text stands in the sheet, or the sheet's length.
fn place(sheet: &[u8], text: &[u8]) -> usize {
    (0..sheet.len())
        .find(|i| sheet[*i..].starts_with(text))
        .unwrap_or(sheet.len())
}

// Prints where the text stands.
fn put_place<W: Write>(out: &mut W, net: &[u8], cut: &[u8], text: &[u8]) -> io::Result<()> {
    let on_cut = place(cut, text);
    if text.is_empty() {
        put_word(out, b"empty")
    } else if on_cut < cut.len() {
        put_word(out, b"cut")?;
        put_number(out, on_cut as u64)
    } else {
        put_word(out, b"net")?;
        put_number(out, place(net, text) as u64)
    }
}

// Prints a node's label.
fn put_label<'a, W: Write>(out: &mut W, net: &'a [u8], cut: &'a [u8], node: u64) -> io::Result<()> {
    let text = labels::label(net, cut, node as usize);
    put_word(out, b"label")?;
    put_number(out, node)?;
    put_hex(out, text)?;
    put_place(out, net, cut, text)
}

// Prints the labels of the nodes that the text names, a space before each.
pub fn all<'a, W: Write>(
    out: &mut W,
    net: &'a [u8],
    cut: &'a [u8],
    nodes: &[u8],
) -> io::Result<()> {
    for node in nodes.split(|b| *b == b' ').skip(1) {
        put_label(out, net, cut, run_text::number(node))?;
    }
    Ok(())
}
