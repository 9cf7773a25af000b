// The sections of a net sheet, put into a lent image.
ghost use Rattle.std.specs.Prelude.{◌≡◌, ◌+◌, ◌*◌, ◌≤◌, length};
ghost use Rattle.base.specs.Lists.{patch};
ghost use Rattle.net_sheet.specs.Image.{record_bytes, record_section, output_section};

// A record's twelve bytes.
fn record_bytes(r: codes::Record) -> [u8; 12]
    ensures { result ≡ record_bytes r }
{
    let [a0, a1] = r.a.to_le_bytes();
    let [b0, b1] = r.b.to_le_bytes();
    let [c0, c1] = r.c.to_le_bytes();
    let [k0, k1, k2, k3] = r.k.to_le_bytes();
    [r.code, r.width, a0, a1, b0, b1, c0, c1, k0, k1, k2, k3]
}

// Puts the records, from byte 0 on.
pub fn put_records(image: &mut [u8], net: &netlist::Netlist)
    requires { net.now.nodes * 12 ≤ length image.old }
    ensures { image.new ≡ patch image.old 0 (record_section net.now) }
{
    for i in 0..net.nodes {
        let bytes = record_bytes(netlist::record_of(net, i));
        layout::put_bytes(image, i * 12, &bytes);
    }
}

// Puts the outputs, from byte `at` on.
pub fn put_outputs(image: &mut [u8], at: usize, net: &netlist::Netlist)
    requires { (net.now.outputs ≤ 64) × (at + net.now.outputs * 2 ≤ length image.old) }
    ensures { image.new ≡ patch image.old at (output_section net.now) }
{
    for j in 0..net.outputs {
        layout::put_bytes(image, at + j * 2, &net.output[j].to_le_bytes());
    }
}
