// The public calls that open a network, feed and drain it, and tell a bench hand how it stands. The network stays where it is and is not copied.
// Answers are numbers, since C reads them.
#![tactic(auto)]

ghost use Rattle.std.specs.Prelude.{◌≡◌};
ghost use Rattle.opens.specs.Opening.{opened};
ghost use Rattle.network.specs.Calls.{FeedCall, DrainCall, TokensCall, FinishedCall};

use plans::Plan;
use spots::Network;

// Opens a network of two sheets with a cycle limit: its plan and the fresh network, or the first of 1 to 11 and 15 that refuses it, with its place.
#[unsafe(no_mangle)]
pub extern "C" fn cwazi_open(net: &[u8], cut: &[u8], limit: u32) -> opens::Opened
    ensures { result ≡ opened net.now cut.now limit }
{
    opens::open(net, cut, limit)
}

// Feeds an input with a value: 12 where there is no such input, 13 where the value is not below 2^w, 14 where its queue is full.
#[unsafe(no_mangle)]
pub extern "C" fn cwazi_feed(plan: &Plan, network: &mut Network, input: u32, value: u32) -> u32
    ensures { FeedCall plan.now network.old input value result network.new }
{
    refusals::answer(moves::feed(plan, network, input, value))
}

// Drains an output: 12 where there is no such output, 14 where its queue is empty; the value.
#[unsafe(no_mangle)]
pub extern "C" fn cwazi_drain(plan: &Plan, network: &mut Network, output: u32) -> moves::Drained
    ensures { DrainCall plan.now network.old output result network.new }
{
    moves::Drained::from(moves::drain(plan, network, output))
}

// How many tokens a queue holds: 12 where there is no such queue.
#[tactic(auto, using(crate::proofs::Whole::tokens_whole))]
#[unsafe(no_mangle)]
pub extern "C" fn cwazi_tokens(plan: &Plan, network: &Network, queue: u32) -> moves::Told
    ensures { TokensCall plan.now network.now queue result }
{
    moves::Told::from(moves::tokens(plan, network, queue))
}

// How many cycles a part has finished: 12 where there is no such part.
#[tactic(auto, using(crate::proofs::Whole::finished_whole))]
#[unsafe(no_mangle)]
pub extern "C" fn cwazi_finished(plan: &Plan, network: &Network, part: u32) -> moves::Told
    ensures { FinishedCall plan.now network.now part result }
{
    moves::Told::from(moves::finished(plan, network, part))
}
