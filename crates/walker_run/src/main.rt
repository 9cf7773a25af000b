// Walks over the records of the sheet `net.sheet` of the folder that it is run in, and prints a line for each: its number, its code, width, a, b, c and k, and how
// many are left with it. A last line says that none is left. It uses the walker by its functions of a sheet and a number.
#![tactic(auto)]

ghost use Rattle.std.specs.Prelude.{◌≤◌, length};

use std::io::Read;
use std::rt::Files;
use std::{fs, io};

// Reads until `sheet` is full, the file ends or a read fails; how many bytes stand at the start of `sheet`. No `run_text::read_full`: where a read fails, what
// was read before counts, and is printed. The place goes on by as many bytes as a read gives.
fn fill(file: &mut impl Read, sheet: &mut [u8]) -> usize
    ensures { result ≤ length sheet.new }
{
    let mut n = 0;
    while n < sheet.len() {
        let more = file.read(&mut sheet[n..]).unwrap_or(0);
        if more == 0 {
            return n;
        }
        n += more;
    }
    n
}

// The bytes of the sheet's file, put into `sheet`; none where it is missing.
fn read_sheet(rt: &impl Files, sheet: &mut [u8]) -> usize
    ensures { result ≤ length sheet.new }
{
    match fs::open(rt, "net.sheet") {
        Ok(mut file) => fill(&mut file, sheet),
        Err(_) => 0,
    }
}

fn run(rt: &impl Print, sheet: &[u8]) -> io::Result<()> {
    let records = walker::records_left(sheet, 0);
    for i in 0..records {
        let r = walker::walked(sheet, i);
        let left = walker::records_left(sheet, i);
        println!(rt;
            "{i}: {} {} {} {} {} {} left {left}",
            r.code, r.width, r.a, r.b, r.c, r.k
        )?;
    }
    let left = walker::records_left(sheet, records);
    println!(rt; "{records}: left {left}")
}

fn main(rt: HostRuntime) -> io::Result<()> {
    let mut sheet = [0u8; 32768];
    let n = read_sheet(&rt, &mut sheet);
    run(&rt, &sheet[..n])
}
