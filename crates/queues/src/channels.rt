// The channels: the parts that use a node marked in its word, a bit for each, then numbered by node and part.
ghost use Rattle.std.specs.Prelude.{◌≡◌, ◌<◌, ◌≤◌, ◌&&◌, not, ◌==◌, cond, length, nat_lt, None, Some};
ghost use Rattle.queues.specs.Queues.{part_of, inputs_of, channels_all, channel_place};
ghost use Rattle.queues.specs.Pass.{marks_of, firsts_of, put_all, mark_if, marked, others, channels_by, Numbered};

// The parts that use a node, a bit for each, and the number of its first channel.
#[derive(Clone, Copy)]
pub struct Uses {
    pub mark: u32,
    pub first: u16,
}

// The word of a node without its own part's bit.
fn others_of(word: u32, own: u8) -> u32
    requires { own < 32 }
    ensures { result ≡ others word own }
{
    word & !(1u32 << own)
}

// Marks that node x is used in part p, where the field is an operand.
fn mark(uses: &mut [Uses; 1024], used: bool, x: u16, p: u8)
    requires { p < 32 }
    ensures { (marks_of uses.new ≡ mark_if used x p (marks_of uses.old)) × (firsts_of uses.new ≡ firsts_of uses.old) }
{
    let at = x as usize;
    if used & (at < 1024) {
        uses[at].mark |= 1u32 << p;
    }
}

// The channels of node i to the other parts of its word, whose bits are walked from the lowest on: no index is counted, and a `for` over all 32 parts would only
// add a test to each.
fn number_node(word: u32, own: u8, i: usize, queues: &mut crate::Queues)
    requires { (i < 1024) × (own < 32) × (queues.old.count ≤ 33792) }
    ensures { queues.new ≡ put_all (channels_by word own i 32) queues.old }
{
    let mut rest = others_of(word, own);
    let mut p = 0u32;
    while rest != 0 {
        let zeros = rest.trailing_zeros();
        let to = p + zeros;
        queues.put(i as u16, own, to as u8);
        rest = rest >> zeros >> 1u32;
        p = to + 1;
    }
}

impl crate::drawing::Drawing<'_> {
    // Marks each operand of the nodes, in the part of the node that uses it.
    fn mark_uses(&self, uses: &mut [Uses; 1024])
        ensures { (marks_of uses.new ≡ marked self.now.net.now self.now.part.now self.now.net.now.nodes (marks_of uses.old)) × (firsts_of uses.new ≡ firsts_of uses.old) }
    {
        for i in 0..self.net.nodes {
            let m = codes::operand_count(self.net.code[i]);
            let p = self.part[i];
            mark(uses, 0 < m, self.net.a[i], p);
            mark(uses, 1 < m, self.net.b[i], p);
            mark(uses, 2 < m, self.net.c[i], p);
        }
    }

    // The channels of all nodes, by node and then by part, behind the inputs.
    pub fn find_channels(&self, queues: &mut crate::Queues) -> [Uses; 1024]
        requires { queues.old.count ≡ length (inputs_of self.now.net.now self.now.part.now) }
        ensures { (queues.new ≡ put_all (channels_all self.now.net.now self.now.part.now) queues.old) × (queues.new.count ≤ 33792) × Numbered self.now.net.now self.now.part.now result }
    {
        let mut uses = [Uses { mark: 0, first: 0 }; 1024];
        self.mark_uses(&mut uses);
        for i in 0..self.net.nodes {
            let first = queues.count as u16;
            number_node(uses[i].mark, self.part[i], i, queues);
            uses[i].first = first;
        }
        uses
    }

    // The queue that operand x is read from in part p; none where the field is no operand or x is in that part itself. As many of x's channels stand
    // before it as there are bits below p.
    pub fn via(&self, uses: &[Uses; 1024], used: bool, x: u16, p: u8) -> Option<u16>
        requires { Numbered self.now.net.now self.now.part.now uses.now × (p < 32) }
        ensures { result ≡ cond (used && nat_lt x self.now.net.now.nodes && not (part_of self.now.part.now x == p)) (Some (channel_place self.now.net.now self.now.part.now x p)) None }
    {
        let i = x as usize;
        if !(used & (i < self.net.nodes)) {
            return None;
        }
        let own = self.part[i];
        if own == p {
            return None;
        }
        let below = (others_of(uses[i].mark, own) % (1u32 << p)).count_ones();
        Some(uses[i].first + below as u16)
    }
}
