// A sheet's sections, loaded into a netlist.
ghost use Rattle.std.specs.Prelude.{◌≡◌, ◌+◌, ◌*◌, ◌≤◌, length};
ghost use Rattle.base.specs.Bytes.{two_at};
ghost use Rattle.base.specs.Lists.{fill};
ghost use Rattle.net_sheet.specs.Reading.{record_at, record_there, net_from};

// Record number i of a sheet; zeros where the sheet has not its 12 bytes, as `stands_at` of the walker and `record_of` say, so that it asks nothing of i.
pub fn record_at(sheet: &[u8], i: usize) -> codes::Record
    ensures { result ≡ record_there sheet.now i }
{
    if i < sheet.len() / 12 {
        let at = i * 12;
        codes::Record {
            code: sheet[at],
            width: sheet[at + 1],
            a: base::le16(sheet[at + 2], sheet[at + 3]),
            b: base::le16(sheet[at + 4], sheet[at + 5]),
            c: base::le16(sheet[at + 6], sheet[at + 7]),
            k: base::le32(sheet[at + 8], sheet[at + 9], sheet[at + 10], sheet[at + 11]),
        }
    } else {
        codes::NO_RECORD
    }
}

// The fields of the first n records.
fn load_nodes(net: &mut netlist::Netlist, sheet: &[u8], n: usize)
    requires { (n ≤ 1024) × (n * 12 ≤ length sheet.now) }
    ensures { net.new ≡ record net.old { code = fill (λ i. (record_at sheet.now i).code) n net.old.code; width = fill (λ i. (record_at sheet.now i).width) n net.old.width; a = fill (λ i. (record_at sheet.now i).a) n net.old.a; b = fill (λ i. (record_at sheet.now i).b) n net.old.b; c = fill (λ i. (record_at sheet.now i).c) n net.old.c; k = fill (λ i. (record_at sheet.now i).k) n net.old.k } }
{
    for i in 0..n {
        let r = record_at(sheet, i);
        net.code[i] = r.code;
        net.width[i] = r.width;
        net.a[i] = r.a;
        net.b[i] = r.b;
        net.c[i] = r.c;
        net.k[i] = r.k;
    }
}

// The first n outputs, which stand from byte `from` on.
fn load_outputs(output: &mut [u16; 64], sheet: &[u8], from: usize, n: usize)
    requires { (n ≤ 64) × (from + n * 2 ≤ length sheet.now) }
    ensures { output.new ≡ fill (λ j. two_at sheet.now (from + j * 2)) n output.old }
{
    for j in 0..n {
        let at = from + j * 2;
        output[j] = base::le16(sheet[at], sheet[at + 1]);
    }
}

// The netlist of a sheet whose sections are these; of a count past an array's length, as much as the array holds.
pub fn net_from(sheet: &[u8], s: layout::Sections) -> netlist::Netlist
    requires { s.front + (s.middle + s.labels) ≤ length sheet.now }
    ensures { result ≡ net_from sheet.now s.front s.middle s.labels }
{
    let mut net = netlist::no_net();
    net.nodes = s.front / 12;
    net.outputs = s.middle / 2;
    net.labels = s.labels;
    let nodes = net.nodes.min(1024);
    let outputs = net.outputs.min(64);
    let labels = s.front + s.middle;
    load_nodes(&mut net, sheet, nodes);
    load_outputs(&mut net.output, sheet, s.front, outputs);
    layout::load_bytes(&mut net.label, &sheet[labels..labels + s.labels]);
    net
}
