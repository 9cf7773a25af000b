// The nineteen codes: their table, and the rule of a record.
#![tactic(auto)]

ghost use Rattle.std.specs.Prelude.{◌≡◌, ◌<◌, get_or, SomeIff};
ghost use Rattle.codes.specs.Rows.{row_at, place_of, count_of};
ghost use Rattle.codes.specs.Packed.{counts_at};
ghost use Rattle.codes.specs.Records.{operand_good, field_good, fields_good, uses_k, widths_good, record_good};

// What a row asks of the widths and of k, w being the record's width.
#[derive(Clone, Copy)]
pub enum Rule {
    // IN: nothing
    Free,
    // CONST: k is below 2^w
    Constant,
    // REG: a has width w, and k is below 2^w
    Register,
    // NOT, NEG: a has width w
    Same,
    // ANY, PAR: w is 1
    Flag,
    // AND to SUB: a and b have width w
    Pair,
    // EQ, LTU: w is 1, and a and b are equal in width
    Compare,
    // SHL, SHR: a has width w
    Shift,
    // MUX: a has width 1, b and c have width w
    Choose,
    // CAT: the widths of a and b add up to w
    Join,
    // SLICE: k + w is at most a's width
    Part,
}

// A row of the table: a code, how many operands it takes, and its width rule.
#[derive(Clone, Copy)]
pub struct Row {
    pub code: u8,
    pub operands: u8,
    pub rule: Rule,
}

// A node's record.
#[derive(Clone, Copy)]
pub struct Record {
    pub code: u8,
    pub width: u8,
    pub a: u16,
    pub b: u16,
    pub c: u16,
    pub k: u32,
}

// The record of zeros, where there is none.
pub const NO_RECORD: Record = Record {
    code: 0,
    width: 0,
    a: 0,
    b: 0,
    c: 0,
    k: 0,
};

const REG: u8 = 0x02;

const ROWS: [Row; 19] = [
    Row {
        code: 0x00,
        operands: 0,
        rule: Rule::Free,
    },
    Row {
        code: 0x01,
        operands: 0,
        rule: Rule::Constant,
    },
    Row {
        code: 0x02,
        operands: 1,
        rule: Rule::Register,
    },
    Row {
        code: 0x10,
        operands: 1,
        rule: Rule::Same,
    },
    Row {
        code: 0x11,
        operands: 1,
        rule: Rule::Same,
    },
    Row {
        code: 0x12,
        operands: 1,
        rule: Rule::Flag,
    },
    Row {
        code: 0x13,
        operands: 1,
        rule: Rule::Flag,
    },
    Row {
        code: 0x20,
        operands: 2,
        rule: Rule::Pair,
    },
    Row {
        code: 0x21,
        operands: 2,
        rule: Rule::Pair,
    },
    Row {
        code: 0x22,
        operands: 2,
        rule: Rule::Pair,
    },
    Row {
        code: 0x23,
        operands: 2,
        rule: Rule::Pair,
    },
    Row {
        code: 0x24,
        operands: 2,
        rule: Rule::Pair,
    },
    Row {
        code: 0x30,
        operands: 2,
        rule: Rule::Compare,
    },
    Row {
        code: 0x31,
        operands: 2,
        rule: Rule::Compare,
    },
    Row {
        code: 0x40,
        operands: 2,
        rule: Rule::Shift,
    },
    Row {
        code: 0x41,
        operands: 2,
        rule: Rule::Shift,
    },
    Row {
        code: 0x50,
        operands: 3,
        rule: Rule::Choose,
    },
    Row {
        code: 0x51,
        operands: 2,
        rule: Rule::Join,
    },
    Row {
        code: 0x52,
        operands: 1,
        rule: Rule::Part,
    },
];

// The place of a code's row in the table; none where there is no such code. The codes fall in ranges by the operands they take.
fn row_place(code: u8) -> Option<usize>
    ensures { SomeIff result (place_of code < 19) (place_of code) }
{
    match code {
        0x00..=0x02 => Some(code as usize),
        0x10..=0x13 => Some(code as usize - 0x0D),
        0x20..=0x24 => Some(code as usize - 0x19),
        0x30..=0x31 => Some(code as usize - 0x24),
        0x40..=0x41 => Some(code as usize - 0x32),
        0x50..=0x52 => Some(code as usize - 0x40),
        _ => None,
    }
}

// Row number i.
fn row_at(i: usize) -> Row
    requires { i < 19 }
    ensures { result ≡ row_at i }
{
    ROWS[i]
}

// The row of a code; none where there is no such code.
fn row_of(code: u8) -> Option<Row>
    ensures { SomeIff result (place_of code < 19) (row_at (place_of code)) }
{
    let place = row_place(code)?;
    Some(row_at(place))
}

// Whether x is an operand that node i may have.
fn operand_good(code: u8, i: usize, nodes: usize, x: u16) -> bool
    ensures { result ≡ operand_good nodes i code x }
{
    let n = x as usize;
    (n < nodes) & ((code == REG) | (n < i))
}

// Whether an operand field is good: an operand where the code uses it, else zero.
fn field_good(used: bool, code: u8, i: usize, nodes: usize, x: u16) -> bool
    ensures { result ≡ field_good used nodes i code x }
{
    if used {
        operand_good(code, i, nodes, x)
    } else {
        x == 0
    }
}

// Whether a rule uses k.
fn uses_k(rule: Rule) -> bool
    ensures { result ≡ uses_k rule }
{
    matches!(rule, Rule::Constant | Rule::Register | Rule::Part)
}

// Whether the record's operands exist and its unused fields are zero.
fn fields_good(row: Row, r: Record, i: usize, nodes: usize) -> bool
    ensures { result ≡ fields_good row nodes i r }
{
    let n = row.operands;
    let rule = row.rule;
    field_good(0 < n, r.code, i, nodes, r.a)
        & field_good(1 < n, r.code, i, nodes, r.b)
        & field_good(2 < n, r.code, i, nodes, r.c)
        & (uses_k(rule) | (r.k == 0))
}

// Whether the widths w of the record and x, y, z of its operands, and k, meet the rule.
fn widths_good(rule: Rule, w: u8, x: u8, y: u8, z: u8, k: u32) -> bool
    ensures { result ≡ widths_good rule w x y z k }
{
    match rule {
        Rule::Free => true,
        Rule::Constant => base::below(k, w),
        Rule::Register => (x == w) & base::below(k, w),
        Rule::Same => x == w,
        Rule::Flag => w == 1,
        Rule::Pair => (x == w) & (y == w),
        Rule::Compare => (w == 1) & (x == y),
        Rule::Shift => x == w,
        Rule::Choose => (x == 1) & (y == w) & (z == w),
        Rule::Join => (x as u16) + (y as u16) == w as u16,
        Rule::Part => (k as u64) + (w as u64) <= x as u64,
    }
}

// The width of node x; 0 where there is no such place.
fn width_at(width: &[u8], x: u16) -> u8
    ensures { result ≡ get_or width.now x 0 }
{
    width.get(x as usize).copied().unwrap_or(0)
}

// Whether record i of so many nodes, whose widths are given, is good.
pub fn record_good(r: Record, i: usize, nodes: usize, width: &[u8]) -> bool
    ensures { result ≡ record_good width.now nodes i r }
{
    let Some(row) = row_of(r.code) else {
        return false;
    };
    let w = r.width;
    (1 <= w)
        & (w <= 32)
        & fields_good(row, r, i, nodes)
        & widths_good(
            row.rule,
            w,
            width_at(width, r.a),
            width_at(width, r.b),
            width_at(width, r.c),
            r.k,
        )
}

// The counts of the 32 codes from 32 times q on, two bits for each.
fn counts_at(q: u8) -> u64
    ensures { result ≡ counts_at q }
{
    match q {
        0 => 0x55_0000_0010,
        1 => 0xA_0000_02AA,
        2 => 0x1B_0000_000A,
        _ => 0,
    }
}

// How many operands a code takes; none where there is no such code. Packed, and not read off the row: opening a network asks it of every node, the jumps of a
// `match` took their time there, and opening is only just within its bar of docs/SPEED.md.
pub fn operand_count(code: u8) -> u8
    ensures { result ≡ count_of code }
{
    let counts = counts_at(code / 32);
    ((counts >> (code % 32 * 2)) % 4) as u8
}
