// One cycle: the INs and REGs take their values, by their lists, and every other node follows, each once; then the outputs; then all registers together. A stored number
// is taken within its array whatever it is.
ghost use Rattle.std.specs.Prelude.{◌≡◌, ◌+◌, ◌<◌, ◌≤◌, length, get_or};
ghost use Rattle.cycles.specs.Listed.{puts, input_at, held_by, next_by};
ghost use Rattle.cycles.specs.Pass.{fields_of, inside, node_kept, computed, fill_from};

use netlist::Netlist;

// The INs of a list take the inputs from place `at` on. By number: `puts` speaks of an entry's place, which two lists gone through side by side don't tell.
pub fn put_inputs(list: &[u16], ins: &[u32], at: usize, vals: &mut [u32; 1024])
    requires { at + length list.now ≤ length ins.now }
    ensures { vals.new ≡ puts list.now (input_at ins.now at) (length list.now) vals.old }
{
    for (j, i) in list.iter().enumerate() {
        vals[*i as usize % 1024] = ins[at + j];
    }
}

// The REGs of a list take what they hold.
pub fn put_held(list: &[u16], regs: &[u32; 1024], vals: &mut [u32; 1024])
    ensures { vals.new ≡ puts list.now (held_by list.now regs.now) (length list.now) vals.old }
{
    for x in list {
        let i = *x as usize % 1024;
        vals[i] = regs[i];
    }
}

// The value of node i, where those of its operands stand in `vals`, and its own where it is an IN or a REG.
#[tactic(auto, unfolding(crate::specs::Pass::node_kept, crate::specs::Pass::node_in))]
fn node_now(net: &Netlist, vals: &[u32; 1024], i: usize) -> u32
    requires { i < 1024 }
    ensures { result ≡ node_kept (fields_of net.now) vals.now i }
{
    let p = net.a[i] as usize % 1024;
    let q = net.b[i] as usize % 1024;
    let s = net.c[i] as usize % 1024;
    match net.code[i] {
        0x00 | 0x02 => vals[i],
        code => values::node_value(
            code,
            net.width[i],
            net.width[q],
            net.k[i],
            vals[p],
            vals[q],
            vals[s],
        ),
    }
}

// The values of the nodes, in their order, where those of the INs and the REGs stand in `vals`.
pub fn evaluate(net: &Netlist, vals: &mut [u32; 1024])
    requires { net.now.nodes ≤ 1024 }
    ensures { vals.new ≡ computed (fields_of net.now) net.now.nodes vals.old }
{
    for i in 0..net.nodes {
        vals[i] = node_now(net, vals, i);
    }
}

// The outputs' values, put from place `at` on. By index: of what is written through an adapter of `iter_mut` a proof knows the length alone.
pub fn put_values(net: &Netlist, vals: &[u32; 1024], outs: &mut [u32], at: usize)
    requires { (net.now.outputs ≤ 64) × (at + net.now.outputs ≤ length outs.old) }
    ensures { outs.new ≡ fill_from at (λ j. get_or vals.now (inside (get_or net.now.output j 0)) 0) net.now.outputs outs.old }
{
    for j in 0..net.outputs {
        outs[at + j] = vals[net.output[j] as usize % 1024];
    }
}

// All registers change together: each takes its operand's value of this cycle.
pub fn change_registers(net: &Netlist, list: &[u16], vals: &[u32; 1024], regs: &mut [u32; 1024])
    ensures { regs.new ≡ puts list.now (next_by list.now net.now.a vals.now) (length list.now) regs.old }
{
    for x in list {
        let i = *x as usize % 1024;
        let p = net.a[i] as usize % 1024;
        regs[i] = vals[p];
    }
}
