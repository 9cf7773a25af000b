// The reader: a netlist and any bytes in; answer, place, cut and queues out.
ghost use Rattle.std.specs.Prelude.{◌≡◌};
ghost use Rattle.cut_sheet.specs.Reading.{cut_read, read_for_c};

// How many label bytes a cut has at most.
const LABELS: usize = 4096;

// What reading a cut sheet gives, as C sees it and so with its answer as a number: on a refusal the cut and the queues are all zeros.
#[repr(C)]
#[derive(Clone, Copy)]
pub struct CutRead {
    pub answer: u32,
    pub place: usize,
    pub cut: cut::Cut,
    pub queues: queues::Queues,
}

// What a reader settles, the cut and its queues or what refuses, as C sees it.
pub fn read_for_c(read: Result<(cut::Cut, queues::Queues), base::Verdict>) -> CutRead
    ensures { result ≡ read_for_c read }
{
    match read {
        Ok((cut, queues)) => CutRead {
            answer: 0,
            place: 0,
            cut,
            queues,
        },
        Err(v) => CutRead {
            answer: v.answer,
            place: v.place,
            cut: cut::no_cut(),
            queues: queues::no_queues(),
        },
    }
}

// The checks 7 to 11, and the cut with its queues where all are good.
fn cut_checked(
    net: &netlist::Netlist,
    sheet: &[u8],
) -> Result<(cut::Cut, queues::Queues), base::Verdict>
    ensures { read_for_c result ≡ cut_read net.now sheet.now }
{
    base::passed(3, base::whole(netlist::numbers_good(net)))?;
    let Some(s) = layout::find_sections(sheet, 0x43) else {
        return Err(base::Verdict {
            answer: 7,
            place: 0,
        });
    };
    base::passed(7, base::whole(s.labels <= LABELS))?;
    let cut = crate::load::cut_from(sheet, s);
    let queues = cut::check_cut(net, &cut)?;
    Ok((cut, queues))
}

// Reads a cut sheet for a netlist that was read: the checks 7 to 11.
pub fn read_cut(net: &netlist::Netlist, sheet: &[u8]) -> CutRead
    ensures { result ≡ cut_read net.now sheet.now }
{
    read_for_c(cut_checked(net, sheet))
}
