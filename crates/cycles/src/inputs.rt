// The values for the INs: whether each is below 2^w.
ghost use Rattle.std.specs.Prelude.{◌≡◌, ◌+◌, ◌≤◌, length};
ghost use Rattle.cycles.specs.Listed.{list_fits};

// Whether the values from `at` on, one for each IN of a list, fit.
pub fn cycle_fits(width: &[u8; 1024], list: &[u16], ins: &[u32], at: usize) -> bool
    requires { at + length list.now ≤ length ins.now }
    ensures { result ≡ list_fits width.now list.now ins.now at (length list.now) }
{
    list.iter()
        .zip(&ins[at..])
        .all(|(i, x)| base::below(*x, width[*i as usize % 1024]))
}
