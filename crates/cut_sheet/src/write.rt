// The writer: any netlist and cut in; answer, place and length out, and the sheet in a lent image.
ghost use Rattle.std.specs.Prelude.{◌≡◌, ◌+◌, ◌≤◌, length};
ghost use Rattle.base.specs.Lists.{patch};
ghost use Rattle.layout.specs.Write.{wrote_for_c};
ghost use Rattle.cut_sheet.specs.Image.{cut_image};
ghost use Rattle.cut_sheet.specs.Writing.{cut_wrote, cut_written};

// Puts the whole sheet, from byte 0 on.
fn put_cut(image: &mut [u8], cut: &cut::Cut)
    requires { (cut.now.nodes ≤ 1024) × (cut.now.queues ≤ 512) × (cut.now.labels ≤ 4096) × (cut.now.nodes + cut.now.queues + cut.now.labels + 16 ≤ length image.old) }
    ensures { image.new ≡ patch image.old 0 (cut_image cut.now) }
{
    let nodes = cut.nodes;
    let queues = cut.queues;
    let labels = cut.labels;
    layout::put_bytes(image, 0, &cut.part[..nodes]);
    layout::put_bytes(image, nodes, &cut.depth[..queues]);
    layout::put_bytes(image, nodes + queues, &cut.label[..labels]);
    let trailer = layout::trailer_bytes(nodes as u32, queues as u32, labels as u32, 0x43);
    layout::put_bytes(image, nodes + queues + labels, &trailer);
}

// The checks 7 to 11, then 16, and the whole sheet where all are good: its length.
fn put_checked(
    net: &netlist::Netlist,
    cut: &cut::Cut,
    image: &mut [u8],
) -> Result<usize, base::Verdict>
    ensures { (wrote_for_c result ≡ cut_wrote net.now cut.now (length image.old)) × (image.new ≡ cut_written net.now cut.now image.old) }
{
    cut::check_cut(net, cut)?;
    let size = cut.nodes + cut.queues + cut.labels + 16;
    base::passed(16, base::whole(size <= image.len()))?;
    put_cut(image, cut);
    Ok(size)
}

// Writes a cut sheet for a netlist: the checks 7 to 11, then 16.
pub fn write_cut(net: &netlist::Netlist, cut: &cut::Cut, image: &mut [u8]) -> layout::Wrote
    ensures { (result ≡ cut_wrote net.now cut.now (length image.old)) × (image.new ≡ cut_written net.now cut.now image.old) }
{
    layout::wrote_for_c(put_checked(net, cut, image))
}
