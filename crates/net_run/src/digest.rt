// A netlist's digest, over every place of its arrays: those past its counts too.
use netlist::Netlist;

// A sum that depends on the order, and all bits that were ever set.
#[derive(Clone, Copy)]
pub struct Digest {
    pub sum: u32,
    pub bits: u32,
}

impl Digest {
    // The digest with one number more.
    fn with(self, x: u32) -> Digest {
        Digest {
            sum: run_text::sum_with(self.sum, x),
            bits: self.bits | x,
        }
    }
}

// The digest with the six numbers of each record.
fn with_records(start: Digest, net: &Netlist) -> Digest {
    let mut d = start;
    for i in 0..1024 {
        d = d
            .with(u32::from(net.code[i]))
            .with(u32::from(net.width[i]))
            .with(u32::from(net.a[i]))
            .with(u32::from(net.b[i]))
            .with(u32::from(net.c[i]))
            .with(net.k[i]);
    }
    d
}

// The digest of all arrays, one after the other.
pub fn of(net: &Netlist) -> Digest {
    let none = Digest { sum: 0, bits: 0 };
    let records = with_records(none, net);
    let outputs = net
        .output
        .iter()
        .fold(records, |d, x| d.with(u32::from(*x)));
    net.label.iter().fold(outputs, |d, x| d.with(u32::from(*x)))
}
