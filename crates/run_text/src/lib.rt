// What programs share: words and lines of a text, hexadecimal, decimals, what is read and what is printed.
#![tactic(auto)]

ghost use Rattle.std.specs.Prelude.{◌≡◌, ℕ, ◌+◌, ◌-◌, ◌*◌, ◌/◌, ◌%◌, ◌^◌, ◌<◌, ◌≤◌, ◌++◌, min, length, take, drop, List, cond, codes, IfSome, IfOk, OnOk, OnErr};
ghost use Rattle.base.specs.Lists.{fill};
ghost use Rattle.run_text.specs.Texts.{first_in, digit_of, byte_of, number_on, alike, all_are, spaced, hex_digit_of, hex_of, hex_text, image_text, AppendsFront};
ghost use Rattle.run_text.specs.Promises.{ReadsLine};
ghost use Rattle.std.specs.Fmt.{decimal};
ghost use Rattle.std.specs.Io.KnownBytes.{Appends, Consumes};
ghost use Rattle.std.specs.Io.{ReadsAtMost};

use std::io;
use std::io::{Error, ErrorKind, Read, Write};

// The first place from `from` on that holds the byte, or the text's length: its promise says so, and no `Option`.
pub fn find(text: &[u8], from: usize, byte: u8) -> usize
    ensures { (result ≡ from + first_in byte (drop from text.now)) × (from ≤ result) × (result ≤ from + (length text.now - from)) }
{
    let rest = &text[from.min(text.len())..];
    from + rest.iter().position(|x| *x == byte).unwrap_or(rest.len())
}

// The place after place i, and the text's length where there is none. No program calls it: it stays for `past_one` of proofs/One and its four edits.
pub fn past(text: &[u8], i: usize) -> usize
    ensures { (result ≡ min (i + 1) (length text.now)) × (result ≤ length text.now) }
{
    i.saturating_add(1).min(text.len())
}

// The value of a hexadecimal digit, and 0 for any other byte.
fn digit(x: u8) -> u8
    ensures { (result ≡ digit_of x) × (result < 16) }
{
    match x {
        b'0'..=b'9' => x - b'0',
        b'a'..=b'f' => x - 87,
        _ => 0,
    }
}

// The byte of two hexadecimal digits.
fn byte(high: u8, low: u8) -> u8
    ensures { result ≡ digit_of high * 16 + digit_of low }
{
    digit(high) * 16 + digit(low)
}

// Puts the bytes of a text of hexadecimal digits into `bytes`, as many as there is room for, and gives their number. By index: of what is
// written through an adapter of `iter_mut` a proof knows the length alone.
pub fn unhex(hex: &[u8], bytes: &mut [u8]) -> usize
    ensures { (result ≡ min (length hex.now / 2) (length bytes.old)) × (bytes.new ≡ fill (byte_of hex.now) result bytes.old) × (result ≤ length bytes.new) }
{
    let whole = (hex.len() / 2).min(bytes.len());
    for i in 0..whole {
        bytes[i] = byte(hex[i * 2], hex[i * 2 + 1]);
    }
    whole
}

// A number with one decimal digit more: ten times as large, and the digit.
fn with_digit(x: u64, decimal: u8) -> u64
    ensures { result ≡ (x * 10 + digit_of decimal) % 2 ^ 64 }
{
    x.wrapping_mul(10).wrapping_add(u64::from(digit(decimal)))
}

// The number that a text of decimal digits says, in 64 bits.
pub fn number(decimals: &[u8]) -> u64
    ensures { result ≡ number_on 0 decimals.now }
{
    let mut x = 0;
    for decimal in decimals {
        x = with_digit(x, *decimal);
    }
    x
}

// The same in 32 bits.
pub fn number32(decimals: &[u8]) -> u32
    ensures { result ≡ number_on 0 decimals.now % 2 ^ 32 }
{
    (number(decimals) % 4294967296) as u32
}

// A sum that depends on the order, with one number more: the sum so far, times 33, and the number, in 32 bits.
pub fn sum_with(sum: u32, x: u32) -> u32
    ensures { result ≡ (sum * 33 + x) % 2 ^ 32 }
{
    sum.wrapping_mul(33).wrapping_add(x)
}

// Whether every byte is the given one.
fn untouched(a: &[u8], filler: u8) -> bool
    ensures { result ≡ all_are filler a.now }
{
    a.iter().all(|x| *x == filler)
}

// The functions that print take the writer to print on. On Ok it holds the whole text behind what it held. An error is the writer's own,
// or says that it takes nothing more: it then holds a front of the text behind what it held, and nothing else. Three clauses and no one relation: answers and
// proofs/One take them up one by one, by their names.

// Writes all of the bytes, in as many writes as it takes, and tries a write that was interrupted again. `write_all` does so too, but does
// not say what an error leaves.
fn put_all<W: Write>(out: &mut W, bytes: &[u8]) -> io::Result<()>
    ensures done { IfOk result (λ r. r ≡ tt) }
    ensures printed { OnOk result (Appends (W.contents out.old) (W.contents out.new) bytes.now) }
    ensures failed { OnErr result (AppendsFront (W.contents out.old) (W.contents out.new) bytes.now) }
{
    let mut n = 0;
    for _ in 0..u64::MAX {
        if n >= bytes.len() {
            return Ok(());
        }
        match out.write(&bytes[n..]) {
            Ok(0) => return Err(Error::new(ErrorKind::WriteZero, "failed to write whole buffer")),
            Ok(more) => n += more,
            Err(e) => {
                if e.kind() != ErrorKind::Interrupted {
                    return Err(e);
                }
            }
        }
    }
    Err(Error::new(ErrorKind::TimedOut, "gave up writing after 2^64 tries"))
}

// Prints a word, after a space.
pub fn put_word<W: Write>(out: &mut W, word: &[u8]) -> io::Result<()>
    ensures done { IfOk result (λ r. r ≡ tt) }
    ensures printed { OnOk result (Appends (W.contents out.old) (W.contents out.new) (spaced word.now)) }
    ensures failed { OnErr result (AppendsFront (W.contents out.old) (W.contents out.new) (spaced word.now)) }
{
    put_all(out, b" ")?;
    put_all(out, word)
}

// Puts the decimals of x behind the first byte of a text, those of its tenth and its last digit, and gives where they end. `write!`
// does not say what an error leaves.
fn put_digits(text: &mut [u8; 21], x: u64) -> usize
    ensures { (result ≡ 1 + length (decimal x)) × (take result text.new ≡ take 1 text.old ++ decimal x) }
{
    let end = if 9 < x { put_digits(text, x / 10) } else { 1 };
    text[end] = b'0' + (x % 10) as u8;
    end + 1
}

// Prints a number in decimals, after a space.
pub fn put_number<W: Write>(out: &mut W, x: u64) -> io::Result<()>
    ensures done { IfOk result (λ r. r ≡ tt) }
    ensures printed { OnOk result (Appends (W.contents out.old) (W.contents out.new) (spaced (decimal x))) }
    ensures failed { OnErr result (AppendsFront (W.contents out.old) (W.contents out.new) (spaced (decimal x))) }
{
    let mut text = [b' '; 21];
    let end = put_digits(&mut text, x);
    put_all(out, &text[..end])
}

// The hexadecimal digit of a number below 16.
fn hex_digit(x: u8) -> u8
    requires { x < 16 }
    ensures { result ≡ hex_digit_of x }
{
    if x < 10 { b'0' + x } else { b'a' - 10 + x }
}

fn put_byte<W: Write>(out: &mut W, x: u8) -> io::Result<()>
    ensures printed { OnOk result (Appends (W.contents out.old) (W.contents out.new) (hex_of x)) }
    ensures failed { OnErr result (AppendsFront (W.contents out.old) (W.contents out.new) (hex_of x)) }
{
    put_all(out, &[hex_digit(x / 16), hex_digit(x % 16)])
}

// Prints the bytes in hexadecimal, after 'x'.
pub fn put_hex<W: Write>(out: &mut W, a: &[u8]) -> io::Result<()>
    ensures done { IfOk result (λ r. r ≡ tt) }
    ensures printed { OnOk result (Appends (W.contents out.old) (W.contents out.new) (hex_text a.now)) }
    ensures failed { OnErr result (AppendsFront (W.contents out.old) (W.contents out.new) (hex_text a.now)) }
{
    put_word(out, b"x")?;
    for x in a {
        put_byte(out, *x)?;
    }
    Ok(())
}

// Prints one of two words.
pub fn put_either<W: Write>(out: &mut W, first: bool, word: &[u8], other: &[u8]) -> io::Result<()>
    ensures done { IfOk result (λ r. r ≡ tt) }
    ensures printed { OnOk result (Appends (W.contents out.old) (W.contents out.new) (spaced (cond first word.now other.now))) }
    ensures failed { OnErr result (AppendsFront (W.contents out.old) (W.contents out.new) (spaced (cond first word.now other.now))) }
{
    if first {
        put_word(out, word)
    } else {
        put_word(out, other)
    }
}

// Prints an image, as the word `same` where it is the sheet, and else its bytes.
#[tactic(auto, using(crate::proofs::Laws::alike_same))]
fn put_same<W: Write>(out: &mut W, image: &[u8], sheet: &[u8]) -> io::Result<()>
    ensures printed { OnOk result (Appends (W.contents out.old) (W.contents out.new) (cond (alike image.now sheet.now) (spaced (codes "same")) (hex_text image.now))) }
    ensures failed { OnErr result (AppendsFront (W.contents out.old) (W.contents out.new) (cond (alike image.now sheet.now) (spaced (codes "same")) (hex_text image.now))) }
{
    if image == sheet {
        put_word(out, b"same")
    } else {
        put_hex(out, image)
    }
}

// Prints the first `length` bytes of a buffer that was filled with A5, where they are not those of the sheet, and whether every byte
// past them is still A5.
pub fn put_image<W: Write>(
    out: &mut W,
    buffer: &[u8],
    length: usize,
    sheet: &[u8],
) -> io::Result<()>
    ensures done { IfOk result (λ r. r ≡ tt) }
    ensures printed { OnOk result (Appends (W.contents out.old) (W.contents out.new)
        (image_text (take length buffer.now) (drop length buffer.now) sheet.now)) }
    ensures failed { OnErr result (AppendsFront (W.contents out.old) (W.contents out.new)
        (image_text (take length buffer.now) (drop length buffer.now) sheet.now)) }
{
    let end = length.min(buffer.len());
    put_same(out, &buffer[..end], sheet)?;
    put_either(out, untouched(&buffer[end..], 0xA5), b"kept", b"SPOILT")
}

// Reads into `bytes` until they are full or the input ends, and gives how many bytes it put at their front. An error is the reader's own:
// what was read before it is lost, and the reader has the rest.
// `read_exact` of the library refuses an input that ends early, and does not say how many bytes it had. The place goes on by as many bytes as a read gives.
pub fn read_full<R: Read>(input: &mut R, bytes: &mut [u8]) -> io::Result<usize>
    ensures bound { ReadsAtMost result bytes.new }
    ensures read { IfOk result (λ n. Consumes (R.remaining input.old) (R.remaining input.new) (take n bytes.new)) }
    ensures count { IfOk result (λ n. IfSome (R.remaining input.old) (λ xs. n ≡ min (length bytes.old) (length xs))) }
    ensures failed { OnErr result ((bs : List ℕ) × Consumes (R.remaining input.old) (R.remaining input.new) bs) }
{
    let mut n = 0;
    while n < bytes.len() {
        let more = input.read(&mut bytes[n..])?;
        if more == 0 {
            return Ok(n);
        }
        n += more;
    }
    Ok(n)
}

// Puts the next line of the input into `line`, without its end, as far as there is room, and gives its length: 0 where there is none, as std's does. An error is the
// reader's own: the front of the line is lost, and the reader has the rest.
pub fn read_line<R: Read>(input: &mut R, line: &mut [u8]) -> io::Result<usize>
    ensures bound { ReadsAtMost result line.new }
    ensures read { IfOk result (λ n. ReadsLine (length line.old) (R.remaining input.old) (R.remaining input.new) n (take n line.new)) }
    ensures failed { OnErr result ((bs : List ℕ) × Consumes (R.remaining input.old) (R.remaining input.new) bs) }
{
    for i in 0..line.len() {
        if read_full(input, &mut line[i..i + 1])? == 0 {
            return Ok(i);
        }
        if line[i] == b'\n' {
            return Ok(i);
        }
    }
    Ok(line.len())
}
