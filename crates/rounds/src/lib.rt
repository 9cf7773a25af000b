// Rules of a network: one fired alone, one asked whether it is ready, a round, and a run.
#![tactic(auto)]

ghost use Rattle.std.specs.Prelude.{◌≡◌};
ghost use Rattle.refusals.specs.Numbers.{answer};
ghost use Rattle.rounds.specs.Fires.{put_would, fire_answer, Fired};
ghost use Rattle.rounds.specs.Runs.{Rounded, Runs};

use plans::Plan;
use refusals::Refusal;
use spots::Network;

// What a run gives, as C sees it and so with its answer as a number. README names this result for proved programs too, so that `run` gives no `Result`.
#[repr(C)]
#[derive(Clone, Copy)]
pub struct Ran {
    pub answer: u32,
    pub rounds: usize,
    pub firings: usize,
}

// Fires a rule by its number: refused where there is no such rule, and where it is not ready.
pub fn fire(plan: &Plan, network: &mut Network, rule: u32) -> Result<(), Refusal>
    ensures { Fired plan.now network.old rule (answer result) network.new }
{
    let q = plan.inputs.min(512) + rule as usize;
    let n = plan.queues.min(512);
    let mut found = evals::NOTHING;
    let fired = if q < n {
        spots::try_puts(plan, network, q, q + 1, 0, &mut found)
    } else if q - n < plan.parts.min(32) {
        let p = q - n;
        spots::try_puts(plan, network, 0, 0, plan.nodes, &mut found);
        finishes::finish_rules(plan, network, p, p + 1, &found)
    } else {
        return Err(Refusal::NoSuch);
    };
    let waits = fired == 0;
    if waits {
        return Err(Refusal::NotNow);
    }
    Ok(())
}

// Whether a put rule would fire. Apart from `ready` and never inlined there: what it finds is ten kilobytes, which a Finish and a number of no rule need not clear.
#[inline(never)]
fn put_would(plan: &Plan, network: &Network, q: usize) -> bool
    ensures { result ≡ put_would plan.now network.now q }
{
    let mut found = evals::NOTHING;
    spots::begin(network, plan.queues, &mut found);
    puts::put_asked(plan, network, q, &mut found)
}

// What firing a rule would give now. Nothing is changed.
pub fn ready(plan: &Plan, network: &Network, rule: u32) -> Result<(), Refusal>
    ensures { answer result ≡ fire_answer plan.now network.now rule }
{
    let q = plan.inputs.min(512) + rule as usize;
    let n = plan.queues.min(512);
    let is_ready = if q < n {
        put_would(plan, network, q)
    } else if q - n < plan.parts.min(32) {
        let p = q - n;
        0 < finishes::finish_asked(plan, network, p, p + 1)
    } else {
        return Err(Refusal::NoSuch);
    };
    if is_ready {
        Ok(())
    } else {
        Err(Refusal::NotNow)
    }
}

// Tries each rule once by its number; how many fired.
pub fn round(plan: &Plan, network: &mut Network) -> usize
    ensures { Rounded plan.now network.old result network.new }
{
    let mut found = evals::NOTHING;
    let puts = spots::try_puts(
        plan,
        network,
        plan.inputs,
        plan.queues,
        plan.nodes,
        &mut found,
    );
    puts + finishes::finish_rules(plan, network, 0, plan.parts, &found)
}

// Rounds one after the other, until so many are done or one fired none: how many there were, that last one too, and how many rules fired. 12 for more than
// 65,535 rounds, and then none is done.
pub fn run(plan: &Plan, network: &mut Network, rounds: u32) -> Ran
    ensures { Runs plan.now network.old rounds result network.new }
{
    let too_many = 65535 < rounds;
    if too_many {
        return Ran {
            answer: Refusal::NoSuch.number(),
            rounds: 0,
            firings: 0,
        };
    }
    let mut firings = 0;
    for done in 0..rounds as usize {
        let fired = round(plan, network);
        firings += fired;
        let rests = fired == 0;
        if rests {
            return Ran {
                answer: 0,
                rounds: done + 1,
                firings,
            };
        }
    }
    Ran {
        answer: 0,
        rounds: rounds as usize,
        firings,
    }
}
