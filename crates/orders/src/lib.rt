// Orders on a network: three lists of kinds, indexes and values, as C lends them, played entry by entry.
#![tactic(auto)]

ghost use Rattle.std.specs.Prelude.{◌≡◌, eqb, filter, length};
ghost use Rattle.refusals.specs.Numbers.{answer, answered, valued};
ghost use Rattle.orders.specs.Orders.{entry_of, Acts, Tried, order_answer, OrderPromise};

use plans::Plan;
use refusals::Refusal;
use spots::Network;

// What an order gives: the counts of feeds, drains and firings done. C's callers read it, and README names it for proved programs too, so that its answer is a number of
// the outline's table and no `Result`.
#[repr(C)]
#[derive(Clone, Copy)]
pub struct Played {
    pub answer: u32,
    pub feeds: usize,
    pub drains: usize,
    pub firings: usize,
}

// What a feed or a fire gives as an entry: value 0 where it is done.
fn with_no_value(called: Result<(), Refusal>) -> Result<u32, Refusal>
    ensures { (answered result ≡ answer called) × (valued result ≡ 0) }
{
    called.map(|()| 0)
}

// Tries one entry: a feed, a drain or a fire by its kind; another kind is refused. Its value is that of a drain that is done, else 0. An entry is three
// numbers, as C's lists hold them, and its kind is one of them: C callers may write any number there.
pub fn act(
    plan: &Plan,
    network: &mut Network,
    kind: u32,
    index: u32,
    value: u32,
) -> Result<u32, Refusal>
    ensures { Acts plan.now network.old (entry_of kind index value) result network.new }
{
    match kind {
        0 => with_no_value(moves::feed(plan, network, index, value)),
        1 => moves::drain(plan, network, index),
        2 => with_no_value(rounds::fire(plan, network, index)),
        _ => Err(Refusal::NoSuch),
    }
}

impl Played {
    // Tries one entry, three numbers as for `act`, and counts it where it is done; the largest number stays. A drained value goes to `drained` behind those before it, where it has such a
    // place.
    pub fn play(
        &mut self,
        plan: &Plan,
        network: &mut Network,
        kind: u32,
        index: u32,
        value: u32,
        drained: &mut [u32],
    )
        ensures { Tried plan.now network.old drained.old self.old (entry_of kind index value) self.new network.new drained.new }
    {
        match (kind, act(plan, network, kind, index, value)) {
            (0, Ok(_)) => self.feeds = self.feeds.saturating_add(1),
            (1, Ok(got)) => {
                if self.drains < drained.len() {
                    drained[self.drains] = got;
                }
                self.drains = self.drains.saturating_add(1);
            }
            (2, Ok(_)) => self.firings = self.firings.saturating_add(1),
            _ => {}
        }
    }
}

// How many entries are drains. A sum and no `filter` with `count`, whose branch takes some ten times as long on kinds in no order.
fn count_drains(kinds: &[u32]) -> usize
    ensures { result ≡ length (filter (λ kind. eqb kind 1) kinds.now) }
{
    let mut found = 0;
    for kind in kinds {
        found += usize::from(*kind == 1);
    }
    found
}

// Whether an order is played: refused where its lists have not one length, and where it has more drains than there are places for them.
fn order_asked(kinds: &[u32], indexes: &[u32], values: &[u32], places: usize) -> Result<(), Refusal>
    ensures { answer result ≡ order_answer kinds.now indexes.now values.now places }
{
    let even = (kinds.len() == indexes.len()) & (kinds.len() == values.len());
    if !even {
        return Err(Refusal::NoSuch);
    }
    if count_drains(kinds) <= places {
        Ok(())
    } else {
        Err(Refusal::NoRoom)
    }
}

// Plays an order: each entry in turn, of which a refused one changes nothing. Drained values go to `drained` from its start. A refused order changes nothing:
// 12 where its lists have not one length, 16 where it has more drains than `drained` has places.
pub fn order(
    plan: &Plan,
    network: &mut Network,
    kinds: &[u32],
    indexes: &[u32],
    values: &[u32],
    drained: &mut [u32],
) -> Played
    ensures { OrderPromise plan.now network.old kinds.now indexes.now values.now drained.old result network.new drained.new }
{
    let mut played = Played {
        answer: refusals::answer(order_asked(kinds, indexes, values, drained.len())),
        feeds: 0,
        drains: 0,
        firings: 0,
    };
    if played.answer != 0 {
        return played;
    }
    // By index: the edit `drained_values_stored_by_entry_number` speaks of the entry's number.
    for t in 0..kinds.len() {
        played.play(plan, network, kinds[t], indexes[t], values[t], drained);
    }
    played
}
