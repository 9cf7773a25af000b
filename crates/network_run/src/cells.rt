// Sums over every place of a network's arrays.
use spots::Network;

// The sum with the numbers of one array more. cut_run has it too: in run_text it would be public, and `Into` promises a relation that is not known to give one number,
// so that two results could not be proved equal.
fn sum_all<T: Copy + Into<u32>>(start: u32, cells: &[T]) -> u32 {
    cells
        .iter()
        .fold(start, |sum, x| run_text::sum_with(sum, (*x).into()))
}

// The sum over the first n numbers of a list.
pub fn first_sum(list: &[u32], n: usize) -> u32 {
    sum_all(0, &list[..n.min(list.len())])
}

// The sum over all arrays, one after the other.
pub fn sum(network: &Network) -> u32 {
    let places = sum_all(0, &network.cells);
    let waiting = sum_all(places, &network.used);
    let flags = sum_all(waiting, &network.flag);
    let registers = sum_all(flags, &network.held);
    sum_all(registers, &network.count)
}
