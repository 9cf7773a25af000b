// The public calls of the plain stepper: a drawing's first registers, and its cycles. The netlist is lent and not copied.
// Answers are numbers, since C reads them.
#![tactic(auto)]

ghost use Rattle.std.specs.Prelude.{◌≡◌};
ghost use Rattle.cycles.specs.Steps.{first_registers, StepsPromise};

use netlist::Netlist;

// The registers of a netlist before its first cycle: k at a REG, 0 elsewhere.
#[unsafe(no_mangle)]
pub extern "C" fn cwazi_first_registers(net: &Netlist, regs: &mut [u32; 1024])
    ensures { regs.new ≡ first_registers net.now }
{
    cycles::first_registers(net, regs)
}

// Many cycles: the inputs are so many times the INs, the outputs so many times the outputs. Refused by 12, 13 and 16, before the first cycle.
#[unsafe(no_mangle)]
pub extern "C" fn cwazi_steps(
    net: &Netlist,
    regs: &mut [u32; 1024],
    cycles: u32,
    ins: &[u32],
    outs: &mut [u32],
) -> u32
    ensures { StepsPromise net.now regs.old cycles ins.now outs.old result regs.new outs.new }
{
    refusals::answer(cycles::steps(net, regs, cycles, ins, outs))
}

// One cycle: refused by 12, 13 and 16, with registers and outputs as they were.
#[unsafe(no_mangle)]
pub extern "C" fn cwazi_step(
    net: &Netlist,
    regs: &mut [u32; 1024],
    ins: &[u32],
    outs: &mut [u32],
) -> u32
    ensures { StepsPromise net.now regs.old 1 ins.now outs.old result regs.new outs.new }
{
    refusals::answer(cycles::step(net, regs, ins, outs))
}
