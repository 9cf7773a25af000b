// The plan of a network: what opening works out once and no call changes.
#![tactic(auto)]

ghost use Rattle.std.specs.Prelude.{◌≡◌, cond};
ghost use Rattle.codes.specs.Rows.{is_in};
ghost use Rattle.plans.specs.Plans.{token_at, read_at, rules_in, plan_of};

// How many there are of each; the nodes' fields with where each operand is read (a node, 1,024 and its queue, or 1,536 for none); the queues' nodes, ends and
// depths. Arrays with counts beside them, since C sees them and nothing is allocated. Lent beside a network and not in it, since C lends them so and one plan serves
// many networks.
#[repr(C)]
#[derive(Clone, Copy)]
pub struct Plan {
    pub limit: u32,
    pub nodes: usize,
    pub parts: usize,
    pub inputs: usize,
    pub channels: usize,
    pub outputs: usize,
    pub queues: usize,
    pub rules: usize,
    pub code: [u8; 1024],
    pub width: [u8; 1024],
    pub join: [u8; 1024],
    pub k: [u32; 1024],
    pub ra: [u16; 1024],
    pub rb: [u16; 1024],
    pub rc: [u16; 1024],
    pub part: [u8; 1024],
    pub node: [u16; 512],
    pub from: [u8; 512],
    pub into: [u8; 512],
    pub depth: [u8; 512],
}

// The place of a queue's oldest token.
fn token_at(q: u16) -> u16
    ensures { result ≡ token_at q }
{
    1024 + q % 512
}

// Where an operand is read. 512 is no queue and 1,536 no place, as the arrays that C sees hold them, and so they are no `Option` here.
fn read_at(used: bool, via: u16, x: u16) -> u16
    ensures { result ≡ read_at used via x }
{
    if used {
        if via < 512 { token_at(via) } else { x }
    } else {
        1536
    }
}

// Where the first field is read, by the same numbers: an IN reads its own queue.
fn first_at(code: u8, used: bool, via: u16, x: u16, input: u16) -> u16
    ensures { result ≡ cond (is_in code) (token_at input) (read_at used via x) }
{
    if code == 0x00 {
        token_at(input)
    } else {
        read_at(used, via, x)
    }
}

// How many rules there are: a put rule for each channel and each output, and a Finish for each part.
fn count_rules(queues: usize, inputs: usize, parts: usize) -> usize
    ensures { result ≡ rules_in queues inputs parts }
{
    queues.min(512).saturating_sub(inputs.min(512)) + parts.min(32)
}

// The plan of a netlist, its cut and its queues, for a cycle limit. They are lent, so that nothing is copied but into the plan.
pub fn make_plan(
    net: &netlist::Netlist,
    cut: &cut::Cut,
    queues: &queues::Queues,
    limit: u32,
) -> Plan
    ensures { result ≡ plan_of net.now cut.now queues.now limit }
{
    let mut join = [0u8; 1024];
    let mut ra = [0u16; 1024];
    let mut rb = [0u16; 1024];
    let mut rc = [0u16; 1024];
    for i in 0..net.nodes.min(1024) {
        let used = codes::operand_count(net.code[i]);
        join[i] = net.width[net.b[i] as usize % 1024];
        ra[i] = first_at(
            net.code[i],
            0 < used,
            queues.a[i],
            net.a[i],
            queues.input[i],
        );
        rb[i] = read_at(1 < used, queues.b[i], net.b[i]);
        rc[i] = read_at(2 < used, queues.c[i], net.c[i]);
    }
    Plan {
        limit,
        nodes: net.nodes,
        parts: queues.parts,
        inputs: queues.inputs,
        channels: queues.channels,
        outputs: queues.outputs,
        queues: queues.count,
        rules: count_rules(queues.count, queues.inputs, queues.parts),
        code: net.code,
        width: net.width,
        join,
        k: net.k,
        ra,
        rb,
        rc,
        part: cut.part,
        node: queues.node,
        from: queues.from,
        into: queues.into,
        depth: cut.depth,
    }
}
