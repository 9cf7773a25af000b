// Opening: two sheets and a cycle limit in; answer, place, the plan and a fresh network out.
#![tactic(auto)]

ghost use Rattle.std.specs.Prelude.{◌≡◌, ◌++◌};
ghost use Rattle.cut_sheet.specs.Reading.{read_checks};
ghost use Rattle.opens.specs.Opening.{no_plan, no_network, fresh_network, limit_checks, opened_by, plan_from, opened};

use netlist::Netlist;
use plans::Plan;
use spots::Network;

// What opening gives: on a refusal the plan and the network are all zeros. C's callers read it, so that an answer and a place stand in it, and no `Result`.
#[repr(C)]
#[derive(Clone, Copy)]
pub struct Opened {
    pub answer: u32,
    pub place: usize,
    pub plan: Plan,
    pub network: Network,
}

// The plan of zeros, which a refusal gives.
#[tactic(auto, unfolding(crate::specs::Opening::no_plan))]
fn no_plan() -> Plan
    ensures { result ≡ no_plan }
{
    Plan {
        limit: 0,
        nodes: 0,
        parts: 0,
        inputs: 0,
        channels: 0,
        outputs: 0,
        queues: 0,
        rules: 0,
        code: [0; 1024],
        width: [0; 1024],
        join: [0; 1024],
        k: [0; 1024],
        ra: [0; 1024],
        rb: [0; 1024],
        rc: [0; 1024],
        part: [0; 1024],
        node: [0; 512],
        from: [0; 512],
        into: [0; 512],
        depth: [0; 512],
    }
}

// The network of zeros, flags off, which a refusal gives.
#[tactic(auto, unfolding(crate::specs::Opening::no_network))]
fn no_network() -> Network
    ensures { result ≡ no_network }
{
    Network {
        cells: [0; 8192],
        used: [0; 512],
        flag: [false; 512],
        held: [0; 1024],
        count: [0; 32],
    }
}

// What a refusal gives.
fn refused(answer: u32, place: usize) -> Opened
    ensures { result ≡ record { answer = answer; place = place; plan = no_plan; network = no_network } }
{
    Opened {
        answer,
        place,
        plan: no_plan(),
        network: no_network(),
    }
}

// Opens a netlist that was read: the checks 7 to 11 on the cut sheet, then 15. The network is fresh: flags off, counts 0, registers at first values, queues empty
// and every one of the 8,192 places zero.
fn open_cut(net: &Netlist, cut: &[u8], limit: u32) -> Opened
    ensures { result ≡ opened_by (read_checks net.now cut.now ++ limit_checks limit) (plan_from net.now cut.now limit) (fresh_network net.now) }
{
    let got = cut_sheet::read_cut(net, cut);
    if got.answer != 0 {
        return refused(got.answer, got.place);
    }
    let allowed = (1 <= limit) & (limit <= 4000000000);
    if !allowed {
        return refused(15, 0);
    }
    let plan = plans::make_plan(net, &got.cut, &got.queues, limit);
    let mut network = no_network();
    cycles::first_registers(net, &mut network.held);
    Opened {
        answer: 0,
        place: 0,
        plan,
        network,
    }
}

// Opens a network: the checks 1 to 11 on the two sheets, then 15 on the cycle limit.
pub fn open(net: &[u8], cut: &[u8], limit: u32) -> Opened
    ensures { result ≡ opened net.now cut.now limit }
{
    let read = net_sheet::read_net(net);
    if read.answer != 0 {
        return refused(read.answer, read.place);
    }
    open_cut(&read.net, cut, limit)
}
