// Put rules tried one after the other; the nodes are evaluated on the way, each once.
#![tactic(auto)]

ghost use Rattle.std.specs.Prelude.{◌≡◌, [], cond, ℕ, ◌+◌, ◌<◌, ltb, get_or};
ghost use Rattle.puts.specs.Puts.{mk_pass, channels_end, rules_of, pass_of, put_test, put_done, Asked, puts_done, Left};

use evals::Found;
use lanes::Network;
use plans::Plan;

// How many nodes are to be evaluated before the rule of queue q is tried: up to a channel's node, and all before an output's. The channels end behind the inputs.
fn needed_for(plan: &Plan, q: usize) -> usize
    requires { q < 512 }
    ensures { result ≡ cond (ltb q (channels_end plan.now)) (get_or plan.now.node q 0 + 1) plan.now.nodes }
{
    if q < plan.inputs.min(512) + plan.channels.min(512) {
        plan.node[q] as usize + 1
    } else {
        plan.nodes
    }
}

// Whether the put rule of queue q is ready, by what was found for the nodes. A stored node and a stored part are taken within their arrays whatever they are.
fn put_ready(plan: &Plan, network: &Network, q: usize, found: &Found) -> bool
    requires { q < 512 }
    ensures { result ≡ put_test plan.now.node plan.now.from plan.now.depth network.now.count plan.now.limit q network.now.used network.now.flag found.now.mets }
{
    let i = plan.node[q] as usize % 1024;
    let p = plan.from[q] as usize % 32;
    !network.flag[q]
        & (network.used[q] < plan.depth[q])
        & found.mets[i]
        & (network.count[p] < plan.limit)
}

// Fires the put rule of queue q.
fn put(plan: &Plan, network: &mut Network, q: usize, found: &mut Found)
    requires { q < 512 }
    ensures { ((seen fired : ℕ) → mk_pass seen (fired + 1) network.new.cells network.new.used network.new.flag found.new.vals found.new.mets ≡ put_done (rules_of plan.now network.old) q (mk_pass seen fired network.old.cells network.old.used network.old.flag found.old.vals found.old.mets)) × (network.new.held ≡ network.old.held) × (network.new.count ≡ network.old.count) }
{
    let i = plan.node[q] as usize % 1024;
    network.push(q, found.vals[i]);
    network.flag[q] = true;
    found.vals[1024 + q] = network.cells[q * 16];
    found.mets[1024 + q] = true;
}

// Whether the put rule of queue q would fire now, nothing being found of the nodes before: those that it needs are evaluated first.
pub fn put_asked(plan: &Plan, network: &Network, q: usize, found: &mut Found) -> bool
    ensures { Asked (rules_of plan.now network.now) q (mk_pass 0 0 [] network.now.used network.now.flag found.old.vals found.old.mets) result found.new.vals found.new.mets }
{
    if q < 512 {
        let n = needed_for(plan, q);
        found.evaluate(plan, &network.held, 0, n);
        put_ready(plan, network, q, found)
    } else {
        false
    }
}

// Tries the put rules of the queues from lo up to hi in their order, and then evaluates the nodes up to `last`; how many fired.
pub fn put_rules(
    plan: &Plan,
    network: &mut Network,
    lo: usize,
    hi: usize,
    last: usize,
    found: &mut Found,
) -> usize
    ensures { Left network.old (puts_done (rules_of plan.now network.old) lo hi last (pass_of network.old found.old)) result network.new found.new }
{
    let mut seen = 0;
    let mut fired = 0;
    for q in lo..hi.min(512) {
        let n = needed_for(plan, q);
        found.evaluate(plan, &network.held, seen, n);
        seen = seen.max(n);
        if put_ready(plan, network, q, found) {
            put(plan, network, q, found);
            fired += 1;
        }
    }
    found.evaluate(plan, &network.held, seen, last);
    fired
}
