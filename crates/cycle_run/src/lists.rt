// Lists of 32-bit numbers: inputs, outputs and registers.
ghost use Rattle.std.specs.Prelude.{◌≤◌, length};

use std::io;
use std::io::Write;

// What a list is filled with before it is lent.
pub const MARK: u32 = 0xA5A5A5A5;

// Puts the numbers of a text into `list`, as many as there is room for, and gives how many they are. A space stands before each.
// By index: of what is written through an adapter of `iter_mut` a proof knows the length alone, and not how many they are.
pub fn numbers(text: &[u8], list: &mut [u32]) -> usize
    ensures { result ≤ length list.new }
{
    let mut n = 0;
    for word in text.split(|b| *b == b' ').skip(1) {
        if list.len() <= n {
            break;
        }
        list[n] = run_text::number32(word);
        n += 1;
    }
    n
}

// Whether every place from `from` on holds the mark.
pub fn marked(list: &[u32], from: usize) -> bool {
    list.iter().skip(from).all(|x| *x == MARK)
}

// Prints the first n numbers.
pub fn put_first<W: Write>(out: &mut W, list: &[u32], n: usize) -> io::Result<()> {
    for x in list.iter().take(n) {
        run_text::put_number(out, u64::from(*x))?;
    }
    Ok(())
}

// Prints the registers' values at the REGs among the first n nodes.
pub fn put_registers<W: Write>(out: &mut W, code: &[u8], n: usize, regs: &[u32]) -> io::Result<()> {
    for (code, value) in code.iter().zip(regs).take(n) {
        if *code == 0x02 {
            run_text::put_number(out, u64::from(*value))?;
        }
    }
    Ok(())
}
