// The library for the boards' hosts: the nineteen calls, exported with C linkage. Each is one call of a library crate, under that crate's clauses; a static
// library exports the functions of its own crate alone, and no other crate can stand on it. Answers are numbers, since C reads them.
#![tactic(auto)]

ghost use Rattle.std.specs.Prelude.{◌≡◌, length};
ghost use Rattle.net_sheet.specs.Reading.{net_read};
ghost use Rattle.net_sheet.specs.Writing.{net_wrote, net_written};
ghost use Rattle.cut_sheet.specs.Reading.{cut_read};
ghost use Rattle.cut_sheet.specs.Writing.{cut_wrote, cut_written};
ghost use Rattle.labels.specs.Spots.{spot_of};
ghost use Rattle.cycles.specs.Steps.{first_registers, StepsPromise};
ghost use Rattle.opens.specs.Opening.{opened};
ghost use Rattle.network.specs.Calls.{FeedCall, DrainCall, TokensCall, FinishedCall};
ghost use Rattle.rules.specs.Calls.{FireCall, ReadyCall, RoundCall, RunCall, OrderCall};
ghost use Rattle.actions.specs.Actions.{ActionsCall};

// Reads a net sheet: the netlist, or the first of 1 to 6 that refuses it, with its place.
#[unsafe(no_mangle)]
pub extern "C" fn cwazi_read_net(sheet: &[u8]) -> net_sheet::NetRead
    ensures { result ≡ net_read sheet.now }
{
    sheets::cwazi_read_net(sheet)
}

// Writes a net sheet into a lent image: its length, or the first of 3 to 6 and 16, and then the image stays as it was.
#[unsafe(no_mangle)]
pub extern "C" fn cwazi_write_net(net: &netlist::Netlist, image: &mut [u8]) -> layout::Wrote
    ensures { (result ≡ net_wrote net.now (length image.old)) × (image.new ≡ net_written net.now image.old) }
{
    sheets::cwazi_write_net(net, image)
}

// Reads a cut sheet for a netlist that was read: the cut and its queues, or the first of 7 to 11 that refuses it, with its place.
#[unsafe(no_mangle)]
pub extern "C" fn cwazi_read_cut(net: &netlist::Netlist, sheet: &[u8]) -> cut_sheet::CutRead
    ensures { result ≡ cut_read net.now sheet.now }
{
    sheets::cwazi_read_cut(net, sheet)
}

// Writes a cut sheet into a lent image: its length, or the first of 7 to 11 and 16, and then the image stays as it was.
#[unsafe(no_mangle)]
pub extern "C" fn cwazi_write_cut(
    net: &netlist::Netlist,
    cut: &cut::Cut,
    image: &mut [u8],
) -> layout::Wrote
    ensures { (result ≡ cut_wrote net.now cut.now (length image.old)) × (image.new ≡ cut_written net.now cut.now image.old) }
{
    sheets::cwazi_write_cut(net, cut, image)
}

// Where a node's label stands: in the cut sheet if it has one, else in the net sheet, else the empty part at the net sheet's end.
#[unsafe(no_mangle)]
pub extern "C" fn cwazi_label(net: &[u8], cut: &[u8], node: usize) -> labels::Spot
    ensures { result ≡ spot_of net.now cut.now node }
{
    sheets::cwazi_label(net, cut, node)
}

// The registers of a netlist before its first cycle: k at a REG, 0 elsewhere.
#[unsafe(no_mangle)]
pub extern "C" fn cwazi_first_registers(net: &netlist::Netlist, regs: &mut [u32; 1024])
    ensures { regs.new ≡ first_registers net.now }
{
    stepper::cwazi_first_registers(net, regs)
}

// Many cycles: the inputs are so many times the INs, the outputs so many times the outputs. Refused by 12, 13 and 16, before the first cycle.
#[unsafe(no_mangle)]
pub extern "C" fn cwazi_steps(
    net: &netlist::Netlist,
    regs: &mut [u32; 1024],
    cycles: u32,
    ins: &[u32],
    outs: &mut [u32],
) -> u32
    ensures { StepsPromise net.now regs.old cycles ins.now outs.old result regs.new outs.new }
{
    stepper::cwazi_steps(net, regs, cycles, ins, outs)
}

// One cycle: refused by 12, 13 and 16, with registers and outputs as they were.
#[unsafe(no_mangle)]
pub extern "C" fn cwazi_step(
    net: &netlist::Netlist,
    regs: &mut [u32; 1024],
    ins: &[u32],
    outs: &mut [u32],
) -> u32
    ensures { StepsPromise net.now regs.old 1 ins.now outs.old result regs.new outs.new }
{
    stepper::cwazi_step(net, regs, ins, outs)
}

// Opens a network of two sheets with a cycle limit: its plan and the fresh network, or the first of 1 to 11 and 15 that refuses it, with its place.
#[unsafe(no_mangle)]
pub extern "C" fn cwazi_open(net: &[u8], cut: &[u8], limit: u32) -> opens::Opened
    ensures { result ≡ opened net.now cut.now limit }
{
    network::cwazi_open(net, cut, limit)
}

// Feeds an input with a value: 12 where there is no such input, 13 where the value is not below 2^w, 14 where its queue is full.
#[unsafe(no_mangle)]
pub extern "C" fn cwazi_feed(
    plan: &plans::Plan,
    network: &mut spots::Network,
    input: u32,
    value: u32,
) -> u32
    ensures { FeedCall plan.now network.old input value result network.new }
{
    network::cwazi_feed(plan, network, input, value)
}

// Drains an output: 12 where there is no such output, 14 where its queue is empty; the value.
#[unsafe(no_mangle)]
pub extern "C" fn cwazi_drain(
    plan: &plans::Plan,
    network: &mut spots::Network,
    output: u32,
) -> moves::Drained
    ensures { DrainCall plan.now network.old output result network.new }
{
    network::cwazi_drain(plan, network, output)
}

// How many tokens a queue holds: 12 where there is no such queue.
#[unsafe(no_mangle)]
pub extern "C" fn cwazi_tokens(
    plan: &plans::Plan,
    network: &spots::Network,
    queue: u32,
) -> moves::Told
    ensures { TokensCall plan.now network.now queue result }
{
    network::cwazi_tokens(plan, network, queue)
}

// How many cycles a part has finished: 12 where there is no such part.
#[unsafe(no_mangle)]
pub extern "C" fn cwazi_finished(
    plan: &plans::Plan,
    network: &spots::Network,
    part: u32,
) -> moves::Told
    ensures { FinishedCall plan.now network.now part result }
{
    network::cwazi_finished(plan, network, part)
}

// Fires a rule by its number: 12 where there is no such rule, 14 where it is not ready.
#[unsafe(no_mangle)]
pub extern "C" fn cwazi_fire(plan: &plans::Plan, network: &mut spots::Network, rule: u32) -> u32
    ensures { FireCall plan.now network.old rule result network.new }
{
    rules::cwazi_fire(plan, network, rule)
}

// The answer that firing a rule would give now: 0 where it is ready, else 12 or 14. Nothing is changed.
#[unsafe(no_mangle)]
pub extern "C" fn cwazi_ready(plan: &plans::Plan, network: &spots::Network, rule: u32) -> u32
    ensures { ReadyCall plan.now network.now rule result }
{
    rules::cwazi_ready(plan, network, rule)
}

// Tries each rule once by its number; how many fired.
#[unsafe(no_mangle)]
pub extern "C" fn cwazi_round(plan: &plans::Plan, network: &mut spots::Network) -> usize
    ensures { RoundCall plan.now network.old result network.new }
{
    rules::cwazi_round(plan, network)
}

// Rounds one after the other, until so many are done or one fired none; 12 for more than 65,535.
#[unsafe(no_mangle)]
pub extern "C" fn cwazi_run(
    plan: &plans::Plan,
    network: &mut spots::Network,
    rounds: u32,
) -> rounds::Ran
    ensures { RunCall plan.now network.old rounds result network.new }
{
    rules::cwazi_run(plan, network, rounds)
}

// An order of three lists, its entries tried in turn: 12 where their lengths differ, 16 where it has more drains than `drained` has places. Drained values go to
// `drained` from its start.
#[unsafe(no_mangle)]
pub extern "C" fn cwazi_order(
    plan: &plans::Plan,
    network: &mut spots::Network,
    kinds: &[u32],
    indexes: &[u32],
    values: &[u32],
    drained: &mut [u32],
) -> orders::Played
    ensures { OrderCall plan.now network.old kinds.now indexes.now values.now drained.old result network.new drained.new }
{
    rules::cwazi_order(plan, network, kinds, indexes, values, drained)
}

// An order of actions, each tried in turn: 16 where it has more drains than `drained` has places, and then none is. Drained values go to `drained` from its start.
#[unsafe(no_mangle)]
pub extern "C" fn cwazi_actions(
    plan: &plans::Plan,
    network: &mut spots::Network,
    actions: &[actions::Action],
    drained: &mut [u32],
) -> orders::Played
    ensures { ActionsCall plan.now network.old actions.now drained.old result network.new drained.new }
{
    actions::cwazi_actions(plan, network, actions, drained)
}
