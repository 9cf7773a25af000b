// The public calls that work a network's rules: one rule, a round, a run, an order, and whether a rule is ready. The network stays where it is and is not copied.
// Answers are numbers, since C reads them.
#![tactic(auto)]

ghost use Rattle.std.specs.Prelude.{◌≡◌};
ghost use Rattle.rules.specs.Calls.{FireCall, ReadyCall, RoundCall, RunCall, OrderCall};

use plans::Plan;
use spots::Network;

// Fires a rule by its number: 12 where there is no such rule, 14 where it is not ready.
#[unsafe(no_mangle)]
pub extern "C" fn cwazi_fire(plan: &Plan, network: &mut Network, rule: u32) -> u32
    ensures { FireCall plan.now network.old rule result network.new }
{
    refusals::answer(rounds::fire(plan, network, rule))
}

// The answer that firing a rule would give now: 0 where it is ready, else 12 or 14. Nothing is changed.
#[tactic(auto, using(crate::proofs::Whole::ready_whole))]
#[unsafe(no_mangle)]
pub extern "C" fn cwazi_ready(plan: &Plan, network: &Network, rule: u32) -> u32
    ensures { ReadyCall plan.now network.now rule result }
{
    refusals::answer(rounds::ready(plan, network, rule))
}

// Tries each rule once by its number; how many fired.
#[unsafe(no_mangle)]
pub extern "C" fn cwazi_round(plan: &Plan, network: &mut Network) -> usize
    ensures { RoundCall plan.now network.old result network.new }
{
    rounds::round(plan, network)
}

// Rounds one after the other, until so many are done or one fired none; 12 for more than 65,535.
#[unsafe(no_mangle)]
pub extern "C" fn cwazi_run(plan: &Plan, network: &mut Network, rounds: u32) -> rounds::Ran
    ensures { RunCall plan.now network.old rounds result network.new }
{
    rounds::run(plan, network, rounds)
}

// An order of three lists, its entries tried in turn: 12 where their lengths differ, 16 where it has more drains than `drained` has places. Drained values go to
// `drained` from its start.
#[unsafe(no_mangle)]
pub extern "C" fn cwazi_order(
    plan: &Plan,
    network: &mut Network,
    kinds: &[u32],
    indexes: &[u32],
    values: &[u32],
    drained: &mut [u32],
) -> orders::Played
    ensures { OrderCall plan.now network.old kinds.now indexes.now values.now drained.old result network.new drained.new }
{
    orders::order(plan, network, kinds, indexes, values, drained)
}
