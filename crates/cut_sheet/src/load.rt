// A sheet's sections, loaded into the arrays of a cut.
ghost use Rattle.std.specs.Prelude.{◌≡◌, ◌+◌, ◌≤◌, length};
ghost use Rattle.cut_sheet.specs.Reading.{cut_from};

// The cut of a sheet whose sections are these.
pub fn cut_from(sheet: &[u8], s: layout::Sections) -> cut::Cut
    requires { s.front + (s.middle + s.labels) ≤ length sheet.now }
    ensures { result ≡ cut_from sheet.now s.front s.middle s.labels }
{
    let mut cut = cut::no_cut();
    cut.nodes = s.front;
    cut.queues = s.middle;
    cut.labels = s.labels;
    let depths = s.front + s.middle;
    layout::load_bytes(&mut cut.part, &sheet[..s.front]);
    layout::load_bytes(&mut cut.depth, &sheet[s.front..depths]);
    layout::load_bytes(&mut cut.label, &sheet[depths..depths + s.labels]);
    cut
}
