// Finish rules: those of several parts at once.
#![tactic(auto)]

ghost use Rattle.std.specs.Prelude.{◌≡◌, min};
ghost use Rattle.base.specs.Lists.{fill};
ghost use Rattle.finishes.specs.Finishes.{next_held, used_after, cells_after, flags_after, next_count, finished, finishing_on};

use evals::Found;
use lanes::Network;
use plans::Plan;

// Marks the parts from lo up to hi whose Finish is ready: below the limit, no flag off, and no incoming queue without a token. A stored part is taken within the
// marks whatever it is.
fn ready(plan: &Plan, network: &Network, lo: usize, hi: usize) -> [bool; 64]
    ensures { result ≡ finishing_on plan.now network.now lo hi }
{
    let mut fin = [false; 64];
    for p in lo..hi.min(32) {
        fin[p] = network.count[p] < plan.limit;
    }
    for q in 0..plan.queues.min(512) {
        let puts = plan.from[q] as usize % 64;
        let takes = plan.into[q] as usize % 64;
        fin[puts] &= network.flag[q];
        fin[takes] &= 0 < network.used[q];
    }
    fin
}

// Changes the registers of the marked parts, all together, by what was found for the nodes.
fn change_held(plan: &Plan, fin: &[bool; 64], found: &Found, held: &mut [u32; 1024])
    ensures { held.new ≡ fill (next_held plan.now.code plan.now.ra plan.now.part found.now.vals fin.now held.old) (min plan.now.nodes 1024) held.old }
{
    for i in 0..plan.nodes.min(1024) {
        let p = plan.part[i] as usize % 64;
        let s = plan.ra[i] as usize % 2048;
        if (plan.code[i] == 0x02) & fin[p] {
            held[i] = found.vals[s];
        }
    }
}

// Takes one token from each incoming queue of the marked parts and puts their flags off.
fn take_all(plan: &Plan, fin: &[bool; 64], network: &mut Network)
    ensures { (network.new.cells ≡ cells_after plan.now.into fin.now (min plan.now.queues 512) network.old.used network.old.cells) × (network.new.used ≡ used_after plan.now.into fin.now (min plan.now.queues 512) network.old.used) × (network.new.flag ≡ flags_after plan.now.from fin.now (min plan.now.queues 512) network.old.flag) × (network.new.held ≡ network.old.held) × (network.new.count ≡ network.old.count) }
{
    for q in 0..plan.queues.min(512) {
        let puts = plan.from[q] as usize % 64;
        let takes = plan.into[q] as usize % 64;
        if fin[takes] {
            network.take(q);
        }
        network.flag[q] &= !fin[puts];
    }
}

// Counts one cycle for each marked part of the first n. By index: of what is written through an adapter of `iter_mut` a proof knows the length alone.
fn count_cycles(n: usize, fin: &[bool; 64], count: &mut [u32; 32])
    ensures { count.new ≡ fill (next_count fin.now count.old) (min n 32) count.old }
{
    for p in 0..n.min(32) {
        if fin[p] {
            count[p] = count[p].wrapping_add(1);
        }
    }
}

// How many of the first n parts are marked.
fn count_marked(n: usize, fin: &[bool; 64]) -> usize
    ensures { result ≡ finished fin.now (min n 32) }
{
    fin[..n.min(32)].iter().filter(|x| **x).count()
}

// How many Finishes of the parts from lo up to hi are ready.
pub fn finish_asked(plan: &Plan, network: &Network, lo: usize, hi: usize) -> usize
    ensures { result ≡ finished (finishing_on plan.now network.now lo hi) (min hi 32) }
{
    count_marked(hi, &ready(plan, network, lo, hi))
}

// Fires the Finish of each part from lo up to hi that is ready, by what was found for the nodes; how many there are.
pub fn finish_rules(
    plan: &Plan,
    network: &mut Network,
    lo: usize,
    hi: usize,
    found: &Found,
) -> usize
    ensures { (result ≡ finished (finishing_on plan.now network.old lo hi) (min hi 32)) × (network.new.cells ≡ cells_after plan.now.into (finishing_on plan.now network.old lo hi) (min plan.now.queues 512) network.old.used network.old.cells) × (network.new.used ≡ used_after plan.now.into (finishing_on plan.now network.old lo hi) (min plan.now.queues 512) network.old.used) × (network.new.flag ≡ flags_after plan.now.from (finishing_on plan.now network.old lo hi) (min plan.now.queues 512) network.old.flag) × (network.new.held ≡ fill (next_held plan.now.code plan.now.ra plan.now.part found.now.vals (finishing_on plan.now network.old lo hi) network.old.held) (min plan.now.nodes 1024) network.old.held) × (network.new.count ≡ fill (next_count (finishing_on plan.now network.old lo hi) network.old.count) (min hi 32) network.old.count) }
{
    let fin = ready(plan, network, lo, hi);
    change_held(plan, &fin, found, &mut network.held);
    take_all(plan, &fin, network);
    count_cycles(hi, &fin, &mut network.count);
    count_marked(hi, &fin)
}
