// A cut sheet there and back, as one promise: what was read and written again is the same bytes.
// net_trips is its twin for net sheets: a trait of readers and writers would be longer than both.
#![tactic(auto)]

ghost use Rattle.std.specs.Prelude.{◌≡◌, length};
ghost use Rattle.cut_trips.specs.Again.{copied, copied_into, reread};
ghost use Rattle.cut_sheet.specs.Writing.{cut_written};

// Reads a sheet and writes what was read.
pub fn copy_cut(net: &netlist::Netlist, sheet: &[u8], image: &mut [u8]) -> layout::Wrote
    ensures { (result ≡ copied net.now sheet.now (length image.old)) × (image.new ≡ copied_into net.now sheet.now image.old) }
{
    let got = cut_sheet::read_cut(net, sheet);
    if got.answer == 0 {
        cut_sheet::write_cut(net, &got.cut, image)
    } else {
        layout::wrote_for_c(Err(base::Verdict {
            answer: got.answer,
            place: got.place,
        }))
    }
}

// Writes a cut and reads what was written.
pub fn reread_cut(net: &netlist::Netlist, cut: &cut::Cut, image: &mut [u8]) -> cut_sheet::CutRead
    ensures { (result ≡ reread net.now cut.now (length image.old)) × (image.new ≡ cut_written net.now cut.now image.old) }
{
    // A byte is below 256: said here, the check knows it of what the reference lends.
    prove!(cut.part[0] <= 255);
    let wrote = cut_sheet::write_cut(net, cut, image);
    if wrote.answer == 0 {
        cut_sheet::read_cut(net, &image[..wrote.length])
    } else {
        cut_sheet::read_for_c(Err(base::Verdict {
            answer: wrote.answer,
            place: wrote.place,
        }))
    }
}
