// A net sheet there and back, as one promise: what was read and written again is the same bytes.
// cut_trips is its twin for cut sheets: a trait of readers and writers would be longer than both.
#![tactic(auto)]

ghost use Rattle.std.specs.Prelude.{◌≡◌, length};
ghost use Rattle.net_trips.specs.Again.{copied, copied_into, reread};
ghost use Rattle.net_sheet.specs.Writing.{net_written};

// Reads a sheet and writes what was read.
pub fn copy_net(sheet: &[u8], image: &mut [u8]) -> layout::Wrote
    ensures { (result ≡ copied sheet.now (length image.old)) × (image.new ≡ copied_into sheet.now image.old) }
{
    let got = net_sheet::read_net(sheet);
    if got.answer == 0 {
        net_sheet::write_net(&got.net, image)
    } else {
        layout::wrote_for_c(Err(base::Verdict {
            answer: got.answer,
            place: got.place,
        }))
    }
}

// Writes a netlist and reads what was written.
pub fn reread_net(net: &netlist::Netlist, image: &mut [u8]) -> net_sheet::NetRead
    ensures { (result ≡ reread net.now (length image.old)) × (image.new ≡ net_written net.now image.old) }
{
    // A byte is below 256: said here, the check knows it of what the reference lends.
    prove!(net.code[0] <= 255);
    let wrote = net_sheet::write_net(net, image);
    if wrote.answer == 0 {
        net_sheet::read_net(&image[..wrote.length])
    } else {
        net_sheet::read_for_c(Err(base::Verdict {
            answer: wrote.answer,
            place: wrote.place,
        }))
    }
}
