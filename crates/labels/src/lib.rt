// A node's label, handed back as the part of the sheet that holds it.
#![tactic(auto)]

ghost use Rattle.std.specs.Prelude.{◌≡◌, true};
ghost use Rattle.layout.specs.Trailer.{sections_of};
ghost use Rattle.labels.specs.Spots.{sheet_spot, where_label, net_end, open_spot, spot_of, IsPart};

// A part of one of the two sheets, as C sees it and so with flags: whether it is the cut's, whether it is a label, its first byte, and its bytes.
#[repr(C)]
#[derive(Clone, Copy)]
pub struct Spot {
    pub cut: bool,
    pub found: bool,
    pub from: usize,
    pub length: usize,
}

// The spot of the node's text in a sheet whose trailer is good, the sheet's second letter given; none where no entry has the node.
fn sheet_spot(sheet: &[u8], letter: u8, node: usize) -> Option<Spot>
    requires { (sections_of letter sheet.now).good ≡ true }
    ensures { result ≡ where_label (sheet_spot letter sheet.now node) }
{
    let s = layout::find_sections(sheet, letter)?;
    let at = s.front + s.middle;
    let t = texts::find_text(&sheet[at..at + s.labels], node)?;
    Some(Spot {
        cut: letter == 0x43,
        found: true,
        from: at + t.from,
        length: t.length,
    })
}

// The empty part at the net sheet's end.
fn net_end(net: &[u8]) -> Spot
    ensures { result ≡ net_end net.now }
{
    Spot {
        cut: false,
        found: false,
        from: net.len(),
        length: 0,
    }
}

// The label's spot in sheets that open.
fn open_spot(net: &[u8], cut: &[u8], node: usize) -> Spot
    requires { ((sections_of 0x4E net.now).good ≡ true) × ((sections_of 0x43 cut.now).good ≡ true) }
    ensures { result ≡ open_spot net.now cut.now node }
{
    let in_cut = sheet_spot(cut, 0x43, node);
    let in_net = sheet_spot(net, 0x4E, node);
    in_cut.or(in_net).unwrap_or(net_end(net))
}

// The label's spot in any two sheets, for callers that cannot be handed a part of a sheet.
pub fn label_spot(net: &[u8], cut: &[u8], node: usize) -> Spot
    ensures { result ≡ spot_of net.now cut.now node }
{
    let got = net_sheet::read_net(net);
    if got.answer != 0 {
        return net_end(net);
    }
    let read = cut_sheet::read_cut(&got.net, cut);
    if read.answer != 0 {
        return net_end(net);
    }
    open_spot(net, cut, node)
}

// A node's label: the cut sheet's if it has one, else the net sheet's, else the empty part at the net sheet's end.
pub fn label<'a>(net: &'a [u8], cut: &'a [u8], node: usize) -> &'a [u8]
    ensures { IsPart (spot_of net.now cut.now node) net.entry cut.entry result }
{
    let spot = label_spot(net, cut, node);
    let sheet = if spot.cut { cut } else { net };
    &sheet[spot.from..spot.from + spot.length]
}
