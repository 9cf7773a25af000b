// Put rules of a network: what is found of nodes and queues begins anew, and the rules are tried.
#![tactic(auto)]

ghost use Rattle.std.specs.Prelude.{◌≡◌, min};
ghost use Rattle.evals.specs.Passes.{tokens_in, tokens_there};
ghost use Rattle.puts.specs.Puts.{Left};
ghost use Rattle.spots.specs.Rounds.{no_vals, no_mets, puts_on};

use evals::Found;
pub use lanes::Network;
use plans::Plan;

// Nothing found of any node, and the oldest token of each of the first n queues.
pub fn begin(network: &Network, n: usize, found: &mut Found)
    ensures { (found.new.vals ≡ tokens_in network.now.cells (min n 512) no_vals) × (found.new.mets ≡ tokens_there network.now.used (min n 512) no_mets) }
{
    *found = evals::NOTHING;
    found.mets[1536] = true;
    found.load(network, n);
}

// Tries the put rules of the queues from lo up to hi in their order, and then evaluates the nodes up to `last`; how many fired.
pub fn try_puts(
    plan: &Plan,
    network: &mut Network,
    lo: usize,
    hi: usize,
    last: usize,
    found: &mut Found,
) -> usize
    ensures { Left network.old (puts_on plan.now network.old lo hi last) result network.new found.new }
{
    begin(network, plan.queues, found);
    puts::put_rules(plan, network, lo, hi, last, found)
}
