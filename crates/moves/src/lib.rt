// Feeds and drains of a network, and what a bench hand asks of it.
#![tactic(auto)]

ghost use Rattle.std.specs.Prelude.{◌≡◌};
ghost use Rattle.refusals.specs.Numbers.{answer};
ghost use Rattle.moves.specs.Moves.{drained, told_as, Fed, Took, tokens_on, finished_on};

use plans::Plan;
use refusals::Refusal;
use spots::Network;

// What a drain gives, as C sees it: 0 and the value, or the refusal's number and 0.
#[repr(C)]
#[derive(Clone, Copy)]
pub struct Drained {
    pub answer: u32,
    pub value: u32,
}

// What a question gives, as C sees it: 0 and the number asked for, or the refusal's number and 0. It is like `Drained`, since C's header names both.
#[repr(C)]
#[derive(Clone, Copy)]
pub struct Told {
    pub answer: u32,
    pub value: u32,
}

// A drain's result as C sees it.
impl From<Result<u32, Refusal>> for Drained {
    ghost from_gives = { λ got r. r ≡ drained got };

    fn from(got: Result<u32, Refusal>) -> Drained {
        match got {
            Ok(value) => Drained { answer: 0, value },
            Err(refusal) => Drained {
                answer: refusal.number(),
                value: 0,
            },
        }
    }
}

// A question's result as C sees it.
impl From<Result<u32, Refusal>> for Told {
    ghost from_gives = { λ got r. r ≡ told_as got };

    fn from(got: Result<u32, Refusal>) -> Told {
        match got {
            Ok(value) => Told { answer: 0, value },
            Err(refusal) => Told {
                answer: refusal.number(),
                value: 0,
            },
        }
    }
}

// Feeds an input with a value: refused where there is no such input, where the value is not below 2^w, and where its queue is full.
pub fn feed(plan: &Plan, network: &mut Network, input: u32, value: u32) -> Result<(), Refusal>
    ensures { Fed plan.now network.old input value (answer result) network.new }
{
    let q = input as usize;
    if plan.inputs.min(512) <= q {
        return Err(Refusal::NoSuch);
    }
    let i = plan.node[q] as usize % 1024;
    if !base::below(value, plan.width[i]) {
        return Err(Refusal::TooLarge);
    }
    if plan.depth[q] <= network.used[q] {
        return Err(Refusal::NotNow);
    }
    network.push(q, value);
    Ok(())
}

// Drains an output of its oldest token: refused where there is no such output, and where its queue is empty.
pub fn drain(plan: &Plan, network: &mut Network, output: u32) -> Result<u32, Refusal>
    ensures { Took plan.now network.old output (drained result) network.new }
{
    let q = plan.inputs.min(512) + plan.channels.min(512) + output as usize;
    if (plan.outputs.min(512) <= output as usize) | (512 <= q) {
        return Err(Refusal::NoSuch);
    }
    let empty = network.used[q] == 0;
    if empty {
        return Err(Refusal::NotNow);
    }
    let value = network.cells[q * 16];
    network.take(q);
    Ok(value)
}

// How many tokens a queue holds; refused where there is no such queue.
pub fn tokens(plan: &Plan, network: &Network, queue: u32) -> Result<u32, Refusal>
    ensures { told_as result ≡ tokens_on plan.now network.now queue }
{
    let q = queue as usize;
    if q < plan.queues.min(512) {
        Ok(network.used[q] as u32)
    } else {
        Err(Refusal::NoSuch)
    }
}

// How many cycles a part has finished; refused where there is no such part.
pub fn finished(plan: &Plan, network: &Network, part: u32) -> Result<u32, Refusal>
    ensures { told_as result ≡ finished_on plan.now network.now part }
{
    let p = part as usize;
    if p < plan.parts.min(32) {
        Ok(network.count[p])
    } else {
        Err(Refusal::NoSuch)
    }
}
