// The part numbers: how many parts there are, and whether each number is one.
ghost use Rattle.std.specs.Prelude.{◌≡◌, suc, nat_le, fold, max};
ghost use Rattle.std.specs.List.{list_all};

// The number of parts: the largest of the nodes' part numbers, plus one.
pub fn count_parts(part: &[u8]) -> usize
    ensures { result ≡ suc (fold max 0 part.now) }
{
    part.iter().fold(0u8, |most, p| most.max(*p)) as usize + 1
}

// Whether no part number is above 31.
pub fn parts_fit(part: &[u8]) -> bool
    ensures { result ≡ list_all (λ p. nat_le p 31) part.now }
{
    part.iter().all(|p| *p <= 31)
}
