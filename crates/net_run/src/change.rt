// What is done to a netlist before it is written, by letters.
use netlist::Netlist;

// Every place from `from` on, as rubbish. cut_run has it too: in run_text it would be public, with a promise of its own, for one line.
// No `fill`: it asks that a clone of a T cannot fail, which a proof does not know of every `Copy` type.
fn rubbish<T: Copy>(cells: &mut [T], from: usize, x: T) {
    for cell in cells.iter_mut().skip(from) {
        *cell = x;
    }
}

// Every node past the count, as rubbish, of the width that the bench's nodes have.
fn rubbish_nodes(net: &mut Netlist) {
    rubbish(&mut net.code, net.nodes, 0x77);
    rubbish(&mut net.width, net.nodes, 8);
    rubbish(&mut net.a, net.nodes, 0x5555);
    rubbish(&mut net.b, net.nodes, 0x4444);
    rubbish(&mut net.c, net.nodes, 0x3333);
    rubbish(&mut net.k, net.nodes, 0x22222222);
}

// A change: rubbish past a count (label bytes are text), a count, or an entry. A capital letter of a count is the largest number. By a match on the letter, which
// is what a case's text has; a table of closures would be no plainer.
fn change(net: &mut Netlist, letter: u8) {
    match letter {
        b'1' => rubbish_nodes(net),
        b'2' => rubbish(&mut net.output, net.outputs, 0x9999),
        b'3' => rubbish(&mut net.label, net.labels, b'a'),
        b'z' => net.nodes = 0,
        b'm' => net.nodes = 1024,
        b'n' => net.nodes = 1025,
        b'N' => net.nodes = usize::MAX,
        b'p' => net.outputs = 65,
        b'P' => net.outputs = usize::MAX,
        b'l' => net.labels = 4097,
        b'L' => net.labels = usize::MAX,
        b'c' => net.code[1] = 3,
        b'w' => net.width[3] = 7,
        b'k' => net.k[1] = 255,
        b'r' => net.a[1] = 4,
        b'o' => net.output[1] = 4,
        b'O' => net.output[0] = 0xFFFF,
        b'b' => net.label[2] = 4,
        b't' => net.label[3] = 0x7F,
        _ => {}
    }
}

// All the changes, in the order of their letters. '-' is none. cut_run has it too: in run_text it would be public and take a closure that changes, of which
// nothing exact could be promised.
pub fn all(net: &mut Netlist, letters: &[u8]) {
    for letter in letters {
        change(net, *letter);
    }
}
