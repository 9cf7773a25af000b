// The queues of a cut drawing, in the outline's order, found in one pass over the operands.
#![tactic(auto)]

ghost use Rattle.std.specs.Prelude.{◌≡◌, ◌<◌};
ghost use Rattle.queues.specs.Found.{no_queues, found, queues_found};
ghost use Rattle.queues.specs.Pass.{put};

mod channels;
mod drawing;
mod ends;
mod maps;
mod parts;

// No queue, as the arrays store it for C.
const NONE: u16 = 512;

// The queues of a cut, inputs first, then channels, then outputs, and where each node and operand finds its own. Arrays with counts beside them, since C sees them and
// nothing is allocated.
#[repr(C)]
#[derive(Clone, Copy)]
pub struct Queues {
    pub parts: usize,
    // how many queues there are, and how many of each kind
    pub count: usize,
    pub inputs: usize,
    pub channels: usize,
    pub outputs: usize,
    // for each queue its node, the part that puts and the part that takes: 32 is outside
    pub node: [u16; 512],
    pub from: [u8; 512],
    pub into: [u8; 512],
    // for each IN its queue, and for each operand of another part the queue that it is read from: 512 is none
    pub input: [u16; 1024],
    pub a: [u16; 1024],
    pub b: [u16; 1024],
    pub c: [u16; 1024],
}

impl Queues {
    // Puts a queue behind those that are there; one past the arrays is counted and not stored.
    fn put(&mut self, node: u16, from: u8, into: u8)
        requires { self.old.count < 65536 }
        ensures { self.new ≡ put node from into self.old }
    {
        let q = self.count;
        if q < 512 {
            self.node[q] = node;
            self.from[q] = from;
            self.into[q] = into;
        }
        self.count = q + 1;
    }
}

// No queues, which a refusal gives.
pub fn no_queues() -> Queues
    ensures { result ≡ no_queues }
{
    Queues {
        parts: 0,
        count: 0,
        inputs: 0,
        channels: 0,
        outputs: 0,
        node: [0; 512],
        from: [0; 512],
        into: [0; 512],
        input: [0; 1024],
        a: [0; 1024],
        b: [0; 1024],
        c: [0; 1024],
    }
}

impl drawing::Drawing<'_> {
    // The queues of a drawing whose parts fit.
    fn number_queues(&self) -> Queues
        ensures { result ≡ found self.now.net.now self.now.part.now }
    {
        let mut queues = no_queues();
        let part = self.part;
        queues.parts = parts::count_parts(&part[..self.net.nodes]);
        self.find_inputs(&mut queues);
        queues.inputs = queues.count;
        let uses = self.find_channels(&mut queues);
        queues.channels = queues.count - queues.inputs;
        self.find_outputs(&mut queues);
        queues.outputs = self.net.outputs;
        self.map_operands(&uses, &mut queues);
        queues
    }
}

// The queues of a drawing cut into parts, in order. Where the parts do not fit it gives zeros and no `None`: `queues_found` says so, and behind the checks 3 to 8 it
// could not fail.
pub fn find_queues(net: &netlist::Netlist, part: &[u8; 1024]) -> Queues
    ensures { result ≡ queues_found net.now part.now }
{
    if (net.nodes <= 1024) & (net.outputs <= 64) {
        if parts::parts_fit(&part[..net.nodes]) {
            return drawing::Drawing { net, part }.number_queues();
        }
    }
    no_queues()
}
