// A walker over a net sheet's records: the sheet and a record number, held together. Each function of a walker has one beside it of a sheet and a number.
#![tactic(auto)]

ghost use Rattle.std.specs.Prelude.{◌≡◌};
ghost use Rattle.walker.specs.Walking.{stands_at, left_from, after};

// The sheet, and the number of the record that the walker stands at.
#[derive(Clone, Copy)]
pub struct Walker<'a> {
    pub sheet: &'a [u8],
    pub number: usize,
}

// The record of a number; zeros where the sheet has not its 12 bytes.
pub fn record_of(sheet: &[u8], number: usize) -> codes::Record
    ensures { result ≡ stands_at sheet.now number }
{
    net_sheet::record_at(sheet, number)
}

// How many records stand from a number on; none where the trailer breaks its rules.
pub fn records_left(sheet: &[u8], number: usize) -> usize
    ensures { result ≡ left_from sheet.now number }
{
    let Some(s) = net_sheet::net_sections(sheet) else {
        return 0;
    };
    let records = s.front / 12;
    records.saturating_sub(number)
}

// The number after a number; the largest stays.
pub fn number_after(number: usize) -> usize
    ensures { result ≡ after number }
{
    number.saturating_add(1)
}

// A walker at record 0.
pub fn walk<'a>(sheet: &'a [u8]) -> Walker<'a>
    ensures { (result.sheet ≡ sheet.entry) × (result.number ≡ 0) }
{
    Walker { sheet, number: 0 }
}

// The record that it stands at. It, `next` and `left` are free functions, since README and docs name them so.
pub fn record<'a>(w: Walker<'a>) -> codes::Record
    ensures { result ≡ stands_at w.entry.sheet.now w.entry.number }
{
    record_of(w.sheet, w.number)
}

// The walker one record on.
pub fn next<'a>(w: Walker<'a>) -> Walker<'a>
    ensures { (result.sheet ≡ w.entry.sheet) × (result.number ≡ after w.entry.number) }
{
    Walker {
        sheet: w.sheet,
        number: number_after(w.number),
    }
}

// How many records are left, with the one that it stands at.
pub fn left<'a>(w: Walker<'a>) -> usize
    ensures { result ≡ left_from w.entry.sheet.now w.entry.number }
{
    records_left(w.sheet, w.number)
}

// The record that a walker stands at after so many steps from record 0, for a caller that has the sheet and no walker. Behind the sheet's end every record is zeros,
// so that no more steps are taken than there are records of 12 bytes.
pub fn walked(sheet: &[u8], steps: usize) -> codes::Record
    ensures { result ≡ stands_at sheet.now steps }
{
    let mut w = walk(sheet);
    for _ in 0..steps.min(sheet.len() / 12) {
        w = next(w);
    }
    record(w)
}
