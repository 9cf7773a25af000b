// The reader: any bytes in; answer, place and netlist out.
ghost use Rattle.std.specs.Prelude.{◌≡◌};
ghost use Rattle.net_sheet.specs.Reading.{net_sections, net_read, read_for_c};

// What reading a net sheet gives, as C sees it and so with its answer as a number: on a refusal the netlist is all zeros.
#[repr(C)]
#[derive(Clone, Copy)]
pub struct NetRead {
    pub answer: u32,
    pub place: usize,
    pub net: netlist::Netlist,
}

// What a reader settles, the netlist or what refuses, as C sees it.
pub fn read_for_c(read: Result<netlist::Netlist, base::Verdict>) -> NetRead
    ensures { result ≡ read_for_c read }
{
    match read {
        Ok(net) => NetRead {
            answer: 0,
            place: 0,
            net,
        },
        Err(v) => NetRead {
            answer: v.answer,
            place: v.place,
            net: netlist::no_net(),
        },
    }
}

// The sections of a net sheet: those that its trailer names, where outputs fill an even number of bytes and records a multiple of 12.
pub fn net_sections(sheet: &[u8]) -> Option<layout::Sections>
    ensures { result ≡ net_sections sheet.now }
{
    let s = layout::find_sections(sheet, 0x4E)?;
    ((s.middle % 2 == 0) & (s.front % 12 == 0)).then_some(s)
}

// The checks 1 to 6, and the netlist where all are good.
fn net_checked(sheet: &[u8]) -> Result<netlist::Netlist, base::Verdict>
    ensures { read_for_c result ≡ net_read sheet.now }
{
    base::passed(1, base::whole(16 <= sheet.len()))?;
    let Some(s) = net_sections(sheet) else {
        return Err(base::Verdict {
            answer: 2,
            place: 0,
        });
    };
    let net = crate::load::net_from(sheet, s);
    netlist::check_net(&net)?;
    Ok(net)
}

// Reads a net sheet: the checks 1 to 6.
pub fn read_net(sheet: &[u8]) -> NetRead
    ensures { result ≡ net_read sheet.now }
{
    read_for_c(net_checked(sheet))
}
