// A cut, and the checks 7 to 11 on it.
#![tactic(auto)]

ghost use Rattle.std.specs.Prelude.{◌≡◌};
ghost use Rattle.cut.specs.Cuts.{no_cut};
ghost use Rattle.cut.specs.Checks.{settled, checked};

mod entries;
mod joins;

// What a cut sheet says: a part number for each node, a depth for each queue, label bytes. A cut that was read has zeros past its counts.
// Arrays with counts beside them, since C sees them and nothing is allocated. No invariant on the counts: C writes any numbers, and the checks 7 to 9 refuse them.
#[repr(C)]
#[derive(Clone, Copy, Default)]
pub struct Cut {
    pub nodes: usize,
    pub part: [u8; 1024],
    pub queues: usize,
    pub depth: [u8; 512],
    pub labels: usize,
    pub label: [u8; 4096],
}

// The cut of zeros, which a refusal gives.
pub fn no_cut() -> Cut
    ensures { result ≡ no_cut }
{
    Cut::default()
}

// The checks 7 to 11 on a cut of a netlist, 7 of its label bytes alone, and 3 before them; the queues where all are good.
pub fn check_cut(net: &netlist::Netlist, cut: &Cut) -> Result<queues::Queues, base::Verdict>
    ensures { result ≡ settled (checked net.now cut.now) }
{
    base::passed(3, base::whole(netlist::numbers_good(net)))?;
    base::passed(7, base::whole(cut.labels <= 4096))?;
    base::passed(8, base::whole(cut.nodes == net.nodes))?;
    base::passed(8, entries::check_parts(&cut.part[..net.nodes]))?;
    let queues = queues::find_queues(net, &cut.part);
    let count = queues.count;
    base::passed(9, base::whole((count <= 512) & (cut.queues == count)))?;
    base::passed(9, entries::check_depths(&cut.depth[..count]))?;
    base::passed(10, joins::check_joined(&queues))?;
    base::passed(
        11,
        layout::check_labels(&cut.label[..cut.labels], net.nodes),
    )?;
    Ok(queues)
}
