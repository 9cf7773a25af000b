// Sums over every place of a cut's arrays and its queues', and what stands past their counts.
use cut_sheet::CutRead;

// The sum with the numbers of one array more. network_run has it too: in run_text it would be public, and `Into` promises a relation that is not known to give one
// number, so that two results could not be proved equal.
fn sum_all<T: Copy + Into<u32>>(start: u32, cells: &[T]) -> u32 {
    cells
        .iter()
        .fold(start, |sum, x| run_text::sum_with(sum, (*x).into()))
}

// The sum over all arrays, one after the other.
pub fn sum(r: &CutRead) -> u32 {
    let part = sum_all(0, &r.cut.part);
    let depth = sum_all(part, &r.cut.depth);
    let label = sum_all(depth, &r.cut.label);
    let node = sum_all(label, &r.queues.node);
    let from = sum_all(node, &r.queues.from);
    let into = sum_all(from, &r.queues.into);
    let input = sum_all(into, &r.queues.input);
    let a = sum_all(input, &r.queues.a);
    let b = sum_all(a, &r.queues.b);
    sum_all(b, &r.queues.c)
}

// Whether every number from `from` on is 0.
fn blank_from<T: Copy + Into<u32>>(cells: &[T], from: usize) -> bool {
    cells.iter().skip(from).all(|x| (*x).into() == 0)
}

// Whether all that stands past so many nodes, depths, label bytes and queues is 0.
fn blank_past(r: &CutRead, nodes: usize, depths: usize, labels: usize, count: usize) -> bool {
    blank_from(&r.cut.part, nodes)
        & blank_from(&r.cut.depth, depths)
        & blank_from(&r.cut.label, labels)
        & blank_from(&r.queues.node, count)
        & blank_from(&r.queues.from, count)
        & blank_from(&r.queues.into, count)
        & blank_from(&r.queues.input, nodes)
        & blank_from(&r.queues.a, nodes)
        & blank_from(&r.queues.b, nodes)
        & blank_from(&r.queues.c, nodes)
}

// Whether all that stands past the counts is 0.
pub fn clean(r: &CutRead) -> bool {
    blank_past(r, r.cut.nodes, r.cut.queues, r.cut.labels, r.queues.count)
}

// Whether all is 0.
pub fn blank(r: &CutRead) -> bool {
    blank_past(r, 0, 0, 0, 0)
}
