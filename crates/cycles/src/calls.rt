// The plain stepper: a netlist's first registers, and its cycles. The netlist is lent and not copied.
ghost use Rattle.std.specs.Prelude.{◌≡◌, ℕ, ◌*◌, ◌≤◌, cond, length};
ghost use Rattle.base.specs.Checks.{every, AllGood};
ghost use Rattle.codes.specs.Rows.{is_reg};
ghost use Rattle.netlist.specs.Checks.{net_checks};
ghost use Rattle.cycles.specs.Listed.{found_in, Listed, list_fits};
ghost use Rattle.refusals.specs.Numbers.{answer};
ghost use Rattle.cycles.specs.Steps.{Registers, first_registers, unlabelled, Cycles, registers_after, outputs_after, StepsPromise};

use netlist::Netlist;
use refusals::Refusal;

// Whether the inputs of every one of so many cycles fit the INs of a list: at once where it has none, however many cycles there are.
fn inputs_fit(width: &[u8; 1024], list: &[u16], cycles: usize, ins: &[u32]) -> bool
    requires { cycles * length list.now ≤ length ins.now }
    ensures { result ≡ every (λ t. list_fits width.now list.now ins.now (t * length list.now) (length list.now)) cycles }
{
    let per = list.len();
    per == 0 || (0..cycles).all(|t| crate::inputs::cycle_fits(width, list, ins, t * per))
}

// The cycles themselves, where nothing is refused.
fn run_cycles(
    net: &Netlist,
    regs: &mut [u32; 1024],
    cycles: usize,
    list: &[u16],
    ins: &[u32],
    outs: &mut [u32],
)
    requires { (net.now.nodes ≤ 1024) × (net.now.outputs ≤ 64) × (length list.now ≡ found_in 0 net.now.code net.now.nodes) × Listed 0 net.now.code net.now.nodes list.now × (cycles * length list.now ≤ length ins.now) × (cycles * net.now.outputs ≤ length outs.old) }
    ensures { AllGood (net_checks (unlabelled net.now)) → Registers (unlabelled net.now) regs.old → (v : ℕ → ℕ → ℕ) → Cycles (unlabelled net.now) regs.old ins.now cycles v → (regs.new ≡ registers_after (unlabelled net.now) regs.old v cycles) × (outs.new ≡ outputs_after (unlabelled net.now) v outs.old cycles) }
{
    let per = list.len();
    let mut places = [0u16; 1024];
    let held = crate::nodes::list_of(&net.code, net.nodes, 0x02, &mut places);
    let holding = &places[..held];
    let mut vals = [0u32; 1024];
    for t in 0..cycles {
        crate::cycle::put_inputs(list, ins, t * per, &mut vals);
        crate::cycle::put_held(holding, regs, &mut vals);
        crate::cycle::evaluate(net, &mut vals);
        crate::cycle::put_values(net, &vals, outs, t * net.outputs);
        crate::cycle::change_registers(net, holding, &vals, regs);
    }
}

// Many cycles, to which labels do not matter: the inputs are so many times the INs, the outputs so many times the outputs. What is refused is refused before the first cycle.
pub fn steps(
    net: &Netlist,
    regs: &mut [u32; 1024],
    cycles: u32,
    ins: &[u32],
    outs: &mut [u32],
) -> Result<(), Refusal>
    ensures { StepsPromise (unlabelled net.now) regs.old cycles ins.now outs.old (answer result) regs.new outs.new }
{
    if 1024 < net.nodes {
        return Err(Refusal::NoSuch);
    }
    if 64 < net.outputs {
        return Err(Refusal::NoSuch);
    }
    let t = cycles as usize;
    let mut places = [0u16; 1024];
    let per = crate::nodes::list_of(&net.code, net.nodes, 0x00, &mut places);
    let list = &places[..per];
    if ins.len() != t * per {
        return Err(Refusal::NoSuch);
    }
    if !inputs_fit(&net.width, list, t, ins) {
        return Err(Refusal::TooLarge);
    }
    if outs.len() < t * net.outputs {
        return Err(Refusal::NoRoom);
    }
    run_cycles(net, regs, t, list, ins, outs);
    Ok(())
}

// One cycle.
pub fn step(
    net: &Netlist,
    regs: &mut [u32; 1024],
    ins: &[u32],
    outs: &mut [u32],
) -> Result<(), Refusal>
    ensures { StepsPromise (unlabelled net.now) regs.old 1 ins.now outs.old (answer result) regs.new outs.new }
{
    steps(net, regs, 1, ins, outs)
}

// What a node's register holds before the first cycle. A function, so that k is there whatever the code: in place the compiler reads it behind a branch, which takes twice
// the time, and over twenty times where one netlist follows another.
fn next_of(code: u8, x: u32) -> u32
    ensures { result ≡ cond (is_reg code) x 0 }
{
    if code == 0x02 { x } else { 0 }
}

// The registers of a netlist before its first cycle: k at a REG, 0 elsewhere.
pub fn first_registers(net: &Netlist, regs: &mut [u32; 1024])
    ensures { regs.new ≡ first_registers net.now }
{
    *regs = [0; 1024];
    for i in 0..net.nodes.min(1024) {
        regs[i] = next_of(net.code[i], net.k[i]);
    }
}
