// What each code computes.
#![tactic(auto)]

ghost use Rattle.std.specs.Prelude.{◌≡◌, ◌+◌, ◌*◌, ◌%◌, ◌^◌, ◌≤◌};
ghost use Rattle.values.specs.Values.{low, code_of, value_of};

// x in w bits.
fn low_bits(x: u32, w: u8) -> u32
    requires { w ≤ 32 }
    ensures { result ≡ low w x }
{
    ((x as u64) % (1u64 << w)) as u32
}

// x above the v bits of y, at 32 bits.
fn joined(v: u8, x: u32, y: u32) -> u32
    requires { v ≤ 32 }
    ensures { result ≡ low 32 (x * 2 ^ v + y) }
{
    ((((x as u64) << v) + (y as u64)) % 4294967296) as u32
}

// By the code, not yet reduced to w bits; IN and REG, whose values the state holds, give 0 here, and so does what is no code. The codes fall in ranges by the operands
// they take, and each code that computes has an arm of its own: one jump finds it, and an operand is read only where its code asks for it. CONST is told in its range,
// before the jump. Both functions are inlined where a drawing's nodes are gone over: a call for each node takes up to twice the time.
#[tactic(auto, unfolding(crate::specs::Values::code_of, crate::specs::Values::constant_of, crate::specs::Values::one_of, crate::specs::Values::two_of, crate::specs::Values::compared_of, crate::specs::Values::shifted_of, crate::specs::Values::wired_of))]
#[inline(always)]
fn coded(code: u8, w: u8, v: u8, k: u32, x: u32, y: u32, z: u32) -> u32
    requires { (w ≤ 32) × (v ≤ 32) }
    ensures { low w result ≡ low w (code_of code w v k x y z) }
{
    match code {
        0x00..=0x0F => if code == 0x01 { k } else { 0 },
        // one operand
        0x10 => !x,
        0x11 => 0u32.wrapping_sub(x),
        0x12 => u32::from(0 < x),
        0x13 => x.count_ones() % 2,
        0x10..=0x1F => 0,
        // two operands of the node's width
        0x20 => x & y,
        0x21 => x | y,
        0x22 => x ^ y,
        0x23 => x.wrapping_add(y),
        0x24 => x.wrapping_sub(y),
        0x20..=0x2F => 0,
        // two operands compared
        0x30 => u32::from(x == y),
        0x31 => u32::from(x < y),
        0x30..=0x3F => 0,
        // two operands, one shifted by the other
        0x40 => x << (y % 32),
        0x41 => x >> (y % 32),
        0x40..=0x4F => 0,
        // wires chosen, joined and taken apart
        0x50 => if x == 1 { y } else { z },
        0x51 => joined(v, x, y),
        0x52 => if k < 32 { x >> k } else { 0 },
        _ => 0,
    }
}

// The value of a node: its code, its width w, the width v of its operand b, its k, and the values x, y and z of its operands a, b and c.
#[tactic(auto, unfolding(crate::specs::Values::value_of))]
#[inline(always)]
pub fn node_value(code: u8, w: u8, v: u8, k: u32, x: u32, y: u32, z: u32) -> u32
    ensures { result ≡ value_of code w v k x y z }
{
    if 32 < w {
        return 0;
    }
    if 32 < v {
        return 0;
    }
    low_bits(coded(code, w, v, k, x, y, z), w)
}
