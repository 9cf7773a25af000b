// The label entries: node number, length, and that many bytes.
ghost use Rattle.std.specs.Prelude.{◌≡◌, ◌<◌, true, length, SomeIff};
ghost use Rattle.std.specs.List.{list_all};
ghost use Rattle.layout.specs.Labels.{text_byte, entry_node, entry_end, entry_good, label_check};

// Whether all bytes are text.
fn all_text(bytes: &[u8]) -> bool
    ensures { result ≡ list_all text_byte bytes.now }
{
    bytes.iter().all(|b| (0x20 <= *b) & (*b <= 0x7E))
}

// A good entry: its node, and the byte behind it.
#[derive(Clone, Copy)]
struct Entry {
    node: usize,
    end: usize,
}

// The entry at byte i, where it is good, its node's number being at least `least`.
fn good_entry(s: &[u8], nodes: usize, least: usize, i: usize) -> Option<Entry>
    requires { i < length s.now }
    ensures { SomeIff result (entry_good nodes least s.now i ≡ true) (record { node = entry_node s.now i; end = entry_end s.now i }) }
{
    if s.len() - i < 3 {
        return None;
    }
    let node = base::le16(s[i], s[i + 1]) as usize;
    let n = s[i + 2] as usize;
    let end = i + 3 + n;
    let text = s.get(i + 3..end)?;
    let good = (node < nodes) & (least <= node) & (1 <= n) & (n <= 31) & all_text(text);
    good.then_some(Entry { node, end })
}

// The first bad entry of a labels section, for a sheet of so many nodes. The loop goes from entry to entry by their lengths, and counts them beside it: a `for` over
// numbers of entries would test for the section's end once more.
pub fn check_labels(s: &[u8], nodes: usize) -> Option<usize>
    ensures { result ≡ label_check nodes s.now }
{
    let mut i = 0;
    let mut least = 0;
    let mut entry = 0;
    while i < s.len() {
        let Some(good) = good_entry(s, nodes, least, i) else {
            return Some(entry);
        };
        least = good.node + 1;
        i = good.end;
        entry += 1;
    }
    None
}
