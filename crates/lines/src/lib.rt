// The lines of `trace`: commands read byte by byte, answers as texts, and what a sheet's file counts as.
#![tactic(auto)]

ghost use Rattle.std.specs.Prelude.{◌≡◌, cond, ◌&&◌, ◌∷◌, ◌++◌, ◌+◌, ◌-◌, ◌%◌, ◌≤◌, ◌<◌, eqb, length, drop, Some, None, unwrap_or};
ghost use Rattle.layout.specs.Write.{placed};
ghost use Rattle.std.specs.Fmt.{decimal};
ghost use Rattle.lines.specs.Commands.{reading, nothing, bad, after_letter, is_digit, longer, goes_on, byte_read, is_command};
ghost use Rattle.lines.specs.Answers.{line_end, word, open_word, answer_text, value_text, opened_text, refused_text, sheet_bytes};

// What has been read of a line: how far its bytes go along the form of a command, and the command's kind and numbers so far. Kinds are 0 feed, 1 drain,
// 2 fire and 3 round.
// Numbers and no enums: the kind goes to `orders::act`, which knows kinds as the C interface's order lists do, and the theorem `NoBytes` (specs/Meaning) names
// place 0, as `byte_read` and `is_command` under `EachRead` and `OnlyThose` tell places by their numbers. Place 7 is that of no command.
#[derive(Clone, Copy)]
pub struct Reading {
    pub place: u32,
    pub kind: u32,
    pub index: u32,
    pub value: u32,
}

// A line of which nothing is read.
pub fn no_bytes() -> Reading
    ensures { result ≡ nothing }
{
    at_place(0, 0, 0, 0)
}

// A reading by its numbers.
fn at_place(place: u32, kind: u32, index: u32, value: u32) -> Reading
    ensures { result ≡ reading place kind index value }
{
    Reading {
        place,
        kind,
        index,
        value,
    }
}

// A line's first byte.
fn letter(b: u8) -> Option<Reading>
    ensures { unwrap_or result bad ≡ after_letter b }
{
    match b {
        b'f' => Some(at_place(1, 0, 0, 0)),
        b'd' => Some(at_place(1, 1, 0, 0)),
        b'r' => Some(at_place(1, 2, 0, 0)),
        b'a' => Some(at_place(6, 3, 0, 0)),
        _ => None,
    }
}

// A digit's value, where the byte is a digit.
#[tactic(auto, unfolding(crate::specs::Commands::is_digit))]
fn digit(b: u8) -> Option<u32>
    ensures { result ≡ cond (is_digit b) (Some (b - 48)) None }
{
    if b.is_ascii_digit() {
        Some(u32::from(b - b'0'))
    } else {
        None
    }
}

// A number with one more digit, where it may have one: it is not 0, and stays below 2^32.
#[tactic(auto, unfolding(crate::specs::Commands::goes_on))]
fn longer(x: u32, b: u8) -> Option<u32>
    ensures { result ≡ cond (goes_on x b) (Some (longer x b)) None }
{
    let last = digit(b)?;
    if x == 0 {
        return None;
    }
    x.checked_mul(10)?.checked_add(last)
}

// What comes after a first number: a space behind a feed's.
fn after_number(r: Reading, b: u8) -> Option<Reading>
    ensures { result ≡ cond (eqb b 32 && eqb r.kind 0) (Some (reading 4 0 r.index 0)) None }
{
    if (b == b' ') & (r.kind == 0) {
        Some(at_place(4, 0, r.index, 0))
    } else {
        None
    }
}

// A line with one more byte, where some command goes on with it.
#[tactic(auto, unfolding(crate::specs::Commands::byte_read))]
fn gone_on(r: Reading, b: u8) -> Option<Reading>
    ensures { unwrap_or result bad ≡ byte_read r b }
{
    match r.place {
        0 => letter(b),
        1 if b == b' ' => Some(at_place(2, r.kind, 0, 0)),
        2 => Some(at_place(3, r.kind, digit(b)?, 0)),
        3 => match longer(r.index, b) {
            Some(index) => Some(at_place(3, r.kind, index, 0)),
            None => after_number(r, b),
        },
        4 => Some(at_place(5, r.kind, r.index, digit(b)?)),
        5 => Some(at_place(5, r.kind, r.index, longer(r.value, b)?)),
        _ => None,
    }
}

// A line with one more byte, which is not its end.
pub fn read_byte(r: Reading, b: u8) -> Reading
    ensures { result ≡ byte_read r b }
{
    gone_on(r, b).unwrap_or(at_place(7, 0, 0, 0))
}

// Whether a line that ends here is a command.
#[tactic(auto, unfolding(crate::specs::Commands::is_command))]
pub fn is_command(r: Reading) -> bool
    ensures { result ≡ is_command r }
{
    (r.place == 5) | ((r.place == 3) & (r.kind != 0)) | (r.place == 6)
}

// How many bytes of a file that was looked for are a sheet's: none where it is missing or over 32,768 bytes. A flag and no
// `Option`: the edit `missing_file_has_its_length` speaks of the length of a missing file.
pub fn sheet_bytes(found: bool, length: usize) -> usize
    ensures { result ≡ sheet_bytes found length }
{
    if found & (length <= 32768) { length } else { 0 }
}

// A line that is written from its last byte to its first: its bytes so far are those from `from` on.
#[derive(Drop)]
struct Line {
    bytes: [u8; 120],
    from: usize,
}

impl Line {
    // A line of one number.
    fn of(n: u64) -> Line
        ensures { (result.from ≤ 120) × (99 ≤ result.from) × (drop result.from result.bytes ≡ decimal n ++ line_end) }
    {
        let mut bytes = [0; 120];
        bytes[119] = b'\n';
        let mut line = Line { bytes, from: 119 };
        line.number(n);
        line
    }

    // A byte in front.
    fn byte(&mut self, b: u8)
        requires { (0 < self.old.from) × (self.old.from ≤ 120) }
        ensures { (self.new.from ≡ self.old.from - 1) × (drop self.new.from self.new.bytes ≡ b ∷ drop self.old.from self.old.bytes) }
    {
        self.from -= 1;
        self.bytes[self.from] = b;
    }

    // The decimals of n in front, from the last digit on: no index is counted, and `write!` asks for a writer that says where in a lent buffer its text stands, which is no
    // plainer.
    fn number(&mut self, n: u64)
        requires { (20 ≤ self.old.from) × (self.old.from ≤ 120) }
        ensures { (self.new.from ≤ self.old.from) × (self.old.from ≤ self.new.from + 20) × (drop self.new.from self.new.bytes ≡ decimal n ++ drop self.old.from self.old.bytes) }
    {
        let mut rest = n;
        while 9 < rest {
            self.byte(last_digit(rest));
            rest /= 10;
        }
        self.byte(last_digit(rest));
    }

    // A number and a space in front.
    fn before(&mut self, n: u64)
        requires { (21 ≤ self.old.from) × (self.old.from ≤ 120) }
        ensures { (self.new.from ≤ self.old.from) × (self.old.from ≤ self.new.from + 21) × (drop self.new.from self.new.bytes ≡ decimal n ++ (32 ∷ drop self.old.from self.old.bytes)) }
    {
        self.byte(b' ');
        self.number(n);
    }

    // The word `open`, an opening's answer, and a space in front.
    fn open(&mut self, answer: u64)
        requires { (26 ≤ self.old.from) × (self.old.from ≤ 120) }
        ensures { (self.new.from ≤ 120) × (drop self.new.from self.new.bytes ≡ open_word (word answer (32 ∷ drop self.old.from self.old.bytes))) }
    {
        self.before(answer);
        self.byte(b' ');
        self.byte(b'n');
        self.byte(b'e');
        self.byte(b'p');
        self.byte(b'o');
    }

    // Puts the line into `out` from byte `at` on, where it fits, and gives its length.
    fn put(&self, out: &mut [u8], at: usize) -> usize
        requires { self.now.from ≤ 120 }
        ensures { (result ≡ length (drop self.now.from self.now.bytes)) × (out.new ≡ placed out.old at (drop self.now.from self.now.bytes)) × (result + self.now.from ≡ 120) }
    {
        let text = &self.bytes[self.from..];
        layout::put_bytes(out, at, text);
        text.len()
    }
}

// The byte of a number's last digit.
fn last_digit(n: u64) -> u8
    ensures { result ≡ 48 + n % 10 }
{
    b'0' + (n % 10) as u8
}

// Puts the line of an answer into `out` from byte `at` on, where it fits, and gives its length.
pub fn put_answer(out: &mut [u8], at: usize, answer: u32) -> usize
    ensures { (result ≡ length (answer_text answer)) × (out.new ≡ placed out.old at (answer_text answer)) × (result ≤ 42) }
{
    Line::of(u64::from(answer)).put(out, at)
}

// Puts the line of an answer with a value or a count behind it into `out` from byte `at` on, where it fits, and gives its length.
pub fn put_value(out: &mut [u8], at: usize, answer: u32, value: u64) -> usize
    ensures { (result ≡ length (value_text answer value)) × (out.new ≡ placed out.old at (value_text answer value)) × (result ≤ 42) }
{
    let mut line = Line::of(value);
    line.before(u64::from(answer));
    line.put(out, at)
}

// Puts the line of an opening into `out` from its start, where it fits, and gives its length.
pub fn put_opened(out: &mut [u8], nodes: usize, parts: usize, queues: usize, rules: usize) -> usize
    ensures { (result ≡ length (opened_text nodes parts queues rules)) × (out.new ≡ placed out.old 0 (opened_text nodes parts queues rules)) × (result ≤ 120) }
{
    let mut line = Line::of(rules as u64);
    line.before(queues as u64);
    line.before(parts as u64);
    line.before(nodes as u64);
    line.open(0);
    line.put(out, 0)
}

// Puts the line of an opening that is refused into `out` from its start, where it fits, and gives its length.
pub fn put_refused(out: &mut [u8], answer: u32, place: usize) -> usize
    ensures { (result ≡ length (refused_text answer place)) × (out.new ≡ placed out.old 0 (refused_text answer place)) × (result ≤ 120) }
{
    let mut line = Line::of(place as u64);
    line.open(u64::from(answer));
    line.put(out, 0)
}
