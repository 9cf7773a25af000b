// The public calls on sheets: readers and writers of both, and a node's label. A netlist and a cut are lent and not copied.
#![tactic(auto)]

ghost use Rattle.std.specs.Prelude.{◌≡◌, length};
ghost use Rattle.net_sheet.specs.Reading.{net_read};
ghost use Rattle.net_sheet.specs.Writing.{net_wrote, net_written};
ghost use Rattle.cut_sheet.specs.Reading.{cut_read};
ghost use Rattle.cut_sheet.specs.Writing.{cut_wrote, cut_written};
ghost use Rattle.labels.specs.Spots.{spot_of};

// Reads a net sheet: the netlist, or the first of 1 to 6 that refuses it, with its place.
#[unsafe(no_mangle)]
pub extern "C" fn cwazi_read_net(sheet: &[u8]) -> net_sheet::NetRead
    ensures { result ≡ net_read sheet.now }
{
    net_sheet::read_net(sheet)
}

// Writes a net sheet into a lent image: its length, or the first of 3 to 6 and 16, and then the image stays as it was.
#[unsafe(no_mangle)]
pub extern "C" fn cwazi_write_net(net: &netlist::Netlist, image: &mut [u8]) -> layout::Wrote
    ensures { (result ≡ net_wrote net.now (length image.old)) × (image.new ≡ net_written net.now image.old) }
{
    net_sheet::write_net(net, image)
}

// Reads a cut sheet for a netlist that was read: the cut and its queues, or the first of 7 to 11 that refuses it, with its place.
#[unsafe(no_mangle)]
pub extern "C" fn cwazi_read_cut(net: &netlist::Netlist, sheet: &[u8]) -> cut_sheet::CutRead
    ensures { result ≡ cut_read net.now sheet.now }
{
    cut_sheet::read_cut(net, sheet)
}

// Writes a cut sheet into a lent image: its length, or the first of 7 to 11 and 16, and then the image stays as it was.
#[unsafe(no_mangle)]
pub extern "C" fn cwazi_write_cut(
    net: &netlist::Netlist,
    cut: &cut::Cut,
    image: &mut [u8],
) -> layout::Wrote
    ensures { (result ≡ cut_wrote net.now cut.now (length image.old)) × (image.new ≡ cut_written net.now cut.now image.old) }
{
    cut_sheet::write_cut(net, cut, image)
}

// Where a node's label stands: in the cut sheet if it has one, else in the net sheet, else the empty part at the net sheet's end.
#[unsafe(no_mangle)]
pub extern "C" fn cwazi_label(net: &[u8], cut: &[u8], node: usize) -> labels::Spot
    ensures { result ≡ spot_of net.now cut.now node }
{
    labels::label_spot(net, cut, node)
}
