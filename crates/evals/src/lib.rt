// The nodes of a network evaluated in one pass, each once: its value, and whether its needs are met.
#![tactic(auto)]

ghost use Rattle.std.specs.Prelude.{◌≡◌, ◌-◌, ◌<◌, min};
ghost use Rattle.evals.specs.Passes.{fields_of, value_now, met_now, vals_after, mets_after, tokens_in, tokens_there};

use lanes::Network;
use plans::Plan;

// What is found of the nodes and, behind them, of the queues' oldest tokens: the values, and whether needs are met. The places behind those are nowhere: a field
// that is no operand is read there. Two arrays, since the definitions of specs/Passes speak of each apart.
#[derive(Clone, Copy)]
pub struct Found {
    pub vals: [u32; 2048],
    pub mets: [bool; 2048],
}

// Nothing found of any node or queue.
pub const NOTHING: Found = Found {
    vals: [0; 2048],
    mets: [false; 2048],
};

impl Found {
    // The value of node i, from what was found before it. A stored place is taken within the arrays whatever it is.
    #[tactic(auto, unfolding(crate::specs::Passes::value_now))]
    fn value(&self, plan: &Plan, held: &[u32; 1024], i: usize) -> u32
        requires { i < 1024 }
        ensures { result ≡ value_now (fields_of plan.now) held.now self.now.vals i }
    {
        let p = plan.ra[i] as usize % 2048;
        let q = plan.rb[i] as usize % 2048;
        let s = plan.rc[i] as usize % 2048;
        match plan.code[i] {
            0x00 => self.vals[p],
            0x02 => held[i],
            code => values::node_value(
                code,
                plan.width[i],
                plan.join[i],
                plan.k[i],
                self.vals[p],
                self.vals[q],
                self.vals[s],
            ),
        }
    }

    // Whether node i's needs are met, from what was found before it.
    #[tactic(auto, unfolding(crate::specs::Passes::met_now))]
    fn met(&self, plan: &Plan, i: usize) -> bool
        requires { i < 1024 }
        ensures { result ≡ met_now (fields_of plan.now) self.now.mets i }
    {
        let p = plan.ra[i] as usize % 2048;
        let q = plan.rb[i] as usize % 2048;
        let s = plan.rc[i] as usize % 2048;
        match plan.code[i] {
            0x00 => self.mets[p],
            0x02 => true,
            _ => self.mets[p] & self.mets[q] & self.mets[s],
        }
    }

    // Evaluates the nodes from lo up to hi, or up to the arrays' end, in their order.
    pub fn evaluate(&mut self, plan: &Plan, held: &[u32; 1024], lo: usize, hi: usize)
        ensures { (self.new.vals ≡ vals_after (fields_of plan.now) held.now lo (min hi 1024 - lo) self.old.vals) × (self.new.mets ≡ mets_after (fields_of plan.now) lo (min hi 1024 - lo) self.old.mets) }
    {
        for i in lo..hi.min(1024) {
            let x = self.value(plan, held, i);
            let met = self.met(plan, i);
            self.vals[i] = x;
            self.mets[i] = met;
        }
    }

    // The oldest token of each of the first n queues, and whether it has one.
    pub fn load(&mut self, network: &Network, n: usize)
        ensures { (self.new.vals ≡ tokens_in network.now.cells (min n 512) self.old.vals) × (self.new.mets ≡ tokens_there network.now.used (min n 512) self.old.mets) }
    {
        for q in 0..n.min(512) {
            self.vals[1024 + q] = network.cells[q * 16];
            self.mets[1024 + q] = 0 < network.used[q];
        }
    }
}
