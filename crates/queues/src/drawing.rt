// A drawing cut into parts: a netlist and its nodes' part numbers, within their bounds.
ghost use Rattle.std.specs.Prelude.{◌≤◌, length};
ghost use Rattle.queues.specs.Pass.{Fit};

// What each pass reads.
#[derive(Clone, Copy)]
pub struct Drawing<'a> {
    pub net: &'a netlist::Netlist,
    pub part: &'a [u8; 1024],
    ghost fits: { Fit net.now part.now },
    ghost outputs_few: { net.now.outputs ≤ 64 },
    // what the type of `part` says, which a proof does not see behind a field that is a `&`
    ghost all_have_parts: { net.now.nodes ≤ length part.now },
}
