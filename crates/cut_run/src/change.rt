// What is done to a cut before it is written, by letters. The counts and entries are those of the bench.
use cut::Cut;

// Every place from `from` on, as rubbish. net_run has it too: in run_text it would be public, with a promise of its own, for one line.
// No `fill`: it asks that a clone of a T cannot fail, which a proof does not know of every `Copy` type.
fn rubbish<T: Copy>(cells: &mut [T], from: usize, x: T) {
    for cell in cells.iter_mut().skip(from) {
        *cell = x;
    }
}

// A change: rubbish past a count (label bytes are text), how many part numbers, depths or label bytes there are said to be, or an entry. By a match on the letter,
// which is what a case's text has; a table of closures would be no plainer.
fn change(cut: &mut Cut, letter: u8) {
    match letter {
        b'1' => rubbish(&mut cut.part, cut.nodes, 0x77),
        b'2' => rubbish(&mut cut.depth, cut.queues, 0x99),
        b'3' => rubbish(&mut cut.label, cut.labels, b'a'),
        b'z' => cut.nodes = 0,
        b'm' => cut.nodes = 3,
        b'n' => cut.nodes = 5,
        b'w' => cut.nodes = 1024,
        b'W' => cut.nodes = 1025,
        b'N' => cut.nodes = usize::MAX,
        b'y' => cut.queues = 0,
        b'd' => cut.queues = 4,
        b'q' => cut.queues = 6,
        b'e' => cut.queues = 512,
        b'E' => cut.queues = 513,
        b'Q' => cut.queues = usize::MAX,
        b'h' => cut.labels = 0,
        b'k' => cut.labels = 4096,
        b'l' => cut.labels = 4097,
        b'L' => cut.labels = usize::MAX,
        b'p' => cut.part[1] = 32,
        b'P' => cut.part[3] = 255,
        b'r' => cut.part[3] = 31,
        b's' => cut.part[1] = 2,
        b'S' => cut.part[3] = 2,
        b'g' => cut.depth[0] = 0,
        b'G' => cut.depth[4] = 17,
        b'f' => cut.depth[2] = 16,
        b'F' => cut.depth[3] = 255,
        b'b' => cut.label[2] = 32,
        b't' => cut.label[3] = 0x7F,
        b'o' => cut.label[0] = 4,
        b'u' => cut.label[6] = 1,
        b'v' => cut.label[3] = b'~',
        _ => {}
    }
}

// All the changes, in the order of their letters. '-' is none. net_run has it too: in run_text it would be public and take a closure that changes, of which
// nothing exact could be promised.
pub fn all(cut: &mut Cut, letters: &[u8]) {
    for letter in letters {
        change(cut, *letter);
    }
}
