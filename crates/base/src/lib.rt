// What every layer shares: what a call answers, the smaller of two numbers, and numbers in bits and in little-endian bytes.
#![tactic(auto)]

ghost use Rattle.std.specs.Prelude.{◌≡◌, ◌^◌, min, ltb};
ghost use Rattle.base.specs.Bytes.{two, four};
ghost use Rattle.base.specs.Checks.{passed, whole};

// A number of the outline's table, and its place: what refuses a sheet. A number and no enum, since the outline names the checks of sheets by their numbers alone,
// and the theorem `ExactAt` (specs/Checks) speaks of them so.
#[derive(Clone, Copy)]
pub struct Verdict {
    pub answer: u32,
    pub place: usize,
}

// What a check gives that answers with a number where it names a bad place.
pub fn passed(answer: u32, bad: Option<usize>) -> Result<(), Verdict>
    ensures { result ≡ passed answer bad }
{
    match bad {
        None => Ok(()),
        Some(place) => Err(Verdict { answer, place }),
    }
}

// What a check gives that has no entries: its place is 0.
pub fn whole(good: bool) -> Option<usize>
    ensures { result ≡ whole good }
{
    if good { None } else { Some(0) }
}

// The number that two bytes hold, the low one first. It and `le32` are two functions, since a type's bytes are no parameter.
pub fn le16(x: u8, y: u8) -> u16
    ensures { result ≡ two x y }
{
    u16::from_le_bytes([x, y])
}

// The number that four bytes hold, the lowest first.
pub fn le32(x: u8, y: u8, z: u8, u: u8) -> u32
    ensures { result ≡ four x y z u }
{
    u32::from_le_bytes([x, y, z, u])
}

// The smaller of the two. No other crate calls it: it is kept, since docs/PROMISES.md names it.
pub fn least(x: usize, y: usize) -> usize
    ensures { result ≡ min x y }
{
    x.min(y)
}

// Whether a value is below 2^w: it has at most w bits. They are counted: a shift by `w.min(32)` was compiled to a branch on w where a cycle's inputs are tested, and
// `cycles::step` took twice as long where widths come in no order.
pub fn below(x: u32, w: u8) -> bool
    ensures { result ≡ ltb x (2 ^ w) }
{
    32 - x.leading_zeros() <= w as u32
}
