// The trailer: three distances back, the edition, and two letters.
ghost use Rattle.std.specs.Prelude.{◌≡◌, ℕ, ◌+◌, ◌≤◌, length};
ghost use Rattle.base.specs.Bytes.{two_at, four_at};
ghost use Rattle.layout.specs.Trailer.{sections_of, where_good, trailer_bytes};

// The bytes of a sheet's three sections, from byte 0.
#[derive(Clone, Copy)]
pub struct Sections {
    pub front: usize,
    pub middle: usize,
    pub labels: usize,
}

// The number in the two bytes from i on.
fn two_at(sheet: &[u8], i: usize) -> u16
    requires { i + 2 ≤ length sheet.now }
    ensures { result ≡ two_at sheet.now i }
{
    base::le16(sheet[i], sheet[i + 1])
}

// The number in the four bytes from i on.
fn four_at(sheet: &[u8], i: usize) -> u32
    requires { i + 4 ≤ length sheet.now }
    ensures { result ≡ four_at sheet.now i }
{
    base::le32(sheet[i], sheet[i + 1], sheet[i + 2], sheet[i + 3])
}

// The sections that the trailer of a sheet names, the sheet's second letter given; none where it breaks the rules that both sheets share.
pub fn find_sections(sheet: &[u8], letter: u8) -> Option<Sections>
    ensures { result ≡ where_good (sections_of letter sheet.now) }
{
    let t = sheet.len().checked_sub(16)?;
    let labels = four_at(sheet, t) as usize;
    let to_middle = four_at(sheet, t + 4) as usize;
    let to_front = four_at(sheet, t + 8) as usize;
    let middle = to_middle.checked_sub(labels)?;
    let front = to_front.checked_sub(to_middle)?;
    let rest = (to_front == t)
        & (two_at(sheet, t + 12) == 1)
        & (sheet[t + 14] == 0x53)
        & (sheet[t + 15] == letter);
    rest.then_some(Sections {
        front,
        middle,
        labels,
    })
}

// The trailer of a sheet whose sections have these many bytes.
pub fn trailer_bytes(front: u32, middle: u32, labels: u32, letter: u8) -> [u8; 16]
    ensures { result ≡ trailer_bytes front middle labels letter }
{
    let to_middle = middle as u64 + labels as u64;
    let to_front = front as u64 + to_middle;
    let [x0, x1, x2, x3] = labels.to_le_bytes();
    let [y0, y1, y2, y3, ..] = to_middle.to_le_bytes();
    let [z0, z1, z2, z3, ..] = to_front.to_le_bytes();
    [
        x0, x1, x2, x3, y0, y1, y2, y3, z0, z1, z2, z3, 1, 0, 0x53, letter,
    ]
}
