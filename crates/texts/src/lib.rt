// Label texts: where the text of a node's entry stands in a labels section.
#![tactic(auto)]

ghost use Rattle.std.specs.Prelude.{◌≡◌, ◌+◌, ◌≤◌, length, SomeIff};
ghost use Rattle.layout.specs.Labels.{entry_node, entry_length, entry_end};
ghost use Rattle.texts.specs.Texts.{where_found, text_of};

// A text's first byte within the section, and its bytes.
#[derive(Clone, Copy)]
pub struct Text {
    pub from: usize,
    pub length: usize,
}

// An entry: its node, and its text.
#[derive(Clone, Copy)]
struct Entry {
    node: usize,
    text: Text,
}

// The entry at byte i; none where the section's end cuts it off.
fn entry_at(s: &[u8], i: usize) -> Option<Entry>
    requires { i ≤ length s.now }
    ensures { SomeIff result (entry_end s.now i ≤ length s.now) (record { node = entry_node s.now i; text = record { from = i + 3; length = entry_length s.now i } }) }
{
    let left = s.len() - i;
    if left < 3 {
        return None;
    }
    let length = s[i + 2] as usize;
    if left - 3 < length {
        return None;
    }
    let node = base::le16(s[i], s[i + 1]) as usize;
    Some(Entry {
        node,
        text: Text {
            from: i + 3,
            length,
        },
    })
}

// Where the text of the node's entry stands in a labels section, which may be any bytes; none where no entry has the node. The loop goes from entry to entry by their
// lengths, as far as there is one.
pub fn find_text(s: &[u8], node: usize) -> Option<Text>
    ensures { result ≡ where_found (text_of s.now node) }
{
    let mut i = 0;
    while let Some(entry) = entry_at(s, i) {
        if entry.node == node {
            return Some(entry.text);
        }
        i = entry.text.from + entry.text.length;
    }
    None
}
