// The entries of a cut: part numbers and depths.
ghost use Rattle.std.specs.Prelude.{◌≡◌, not, nat_lt, position};
ghost use Rattle.cut.specs.Checks.{depth_good};

// Check 8: the first node whose part number is above 31.
pub fn check_parts(part: &[u8]) -> Option<usize>
    ensures { result ≡ position (λ p. nat_lt 31 p) part.now }
{
    part.iter().position(|p| *p > 31)
}

// Check 9: the first queue whose depth is not 1 to 16.
pub fn check_depths(depth: &[u8]) -> Option<usize>
    ensures { result ≡ position (λ d. not (depth_good d)) depth.now }
{
    depth.iter().position(|d| !(1..=16).contains(d))
}
