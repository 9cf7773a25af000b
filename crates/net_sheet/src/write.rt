// The writer: any netlist in; answer, place and length out, and the sheet in a lent image.
ghost use Rattle.std.specs.Prelude.{◌≡◌, ◌+◌, ◌*◌, ◌≤◌, length};
ghost use Rattle.base.specs.Lists.{patch};
ghost use Rattle.layout.specs.Write.{wrote_for_c};
ghost use Rattle.net_sheet.specs.Image.{net_image};
ghost use Rattle.net_sheet.specs.Writing.{net_wrote, net_written};

// Puts the whole sheet, from byte 0 on.
fn put_net(image: &mut [u8], net: &netlist::Netlist)
    requires { (net.now.nodes ≤ 1024) × (net.now.outputs ≤ 64) × (net.now.labels ≤ 4096) × (net.now.nodes * 12 + net.now.outputs * 2 + net.now.labels + 16 ≤ length image.old) }
    ensures { image.new ≡ patch image.old 0 (net_image net.now) }
{
    let front = net.nodes * 12;
    let middle = net.outputs * 2;
    let labels = net.labels;
    crate::put::put_records(image, net);
    crate::put::put_outputs(image, front, net);
    layout::put_bytes(image, front + middle, &net.label[..labels]);
    let trailer = layout::trailer_bytes(front as u32, middle as u32, labels as u32, 0x4E);
    layout::put_bytes(image, front + middle + labels, &trailer);
}

// The bytes that the sheet takes.
fn sheet_size(net: &netlist::Netlist) -> usize
    requires { (net.now.nodes ≤ 1024) × (net.now.outputs ≤ 64) × (net.now.labels ≤ 4096) }
    ensures { (result ≡ length (net_image net.now)) × (result ≡ net.now.nodes * 12 + net.now.outputs * 2 + net.now.labels + 16) }
{
    let labels = &net.label[..net.labels];
    net.nodes * 12 + net.outputs * 2 + labels.len() + 16
}

// The checks 3 to 6, then 16, and the whole sheet where all are good: its length.
fn put_checked(net: &netlist::Netlist, image: &mut [u8]) -> Result<usize, base::Verdict>
    ensures { (wrote_for_c result ≡ net_wrote net.now (length image.old)) × (image.new ≡ net_written net.now image.old) }
{
    netlist::check_net(net)?;
    let size = sheet_size(net);
    base::passed(16, base::whole(size <= image.len()))?;
    put_net(image, net);
    Ok(size)
}

// Writes a net sheet: the checks 3 to 6, then 16.
pub fn write_net(net: &netlist::Netlist, image: &mut [u8]) -> layout::Wrote
    ensures { (result ≡ net_wrote net.now (length image.old)) × (image.new ≡ net_written net.now image.old) }
{
    layout::wrote_for_c(put_checked(net, image))
}
