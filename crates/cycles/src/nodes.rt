// Lists of a drawing's nodes of one code, so that a cycle goes over its INs and its REGs alone.
ghost use Rattle.std.specs.Prelude.{◌≡◌, ◌≤◌, take};
ghost use Rattle.cycles.specs.Listed.{found_in, Listed};

// The nodes of a code among the first n, in their order, at the front of the list, and how many there are. What is stored at a place before one is found for it is written over:
// each node is stored and counted by hand, so that there is no branch.
pub fn list_of(code: &[u8; 1024], n: usize, kind: u8, list: &mut [u16; 1024]) -> usize
    requires { n ≤ 1024 }
    ensures { (result ≤ n) × (result ≡ found_in kind code.now n) × Listed kind code.now n (take result list.new) }
{
    let mut j = 0;
    for i in 0..n {
        list[j] = i as u16;
        j += usize::from(code[i] == kind);
    }
    j
}
