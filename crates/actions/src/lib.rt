// An order as one lent slice of actions, played on a network behind references as one of three lists is. Nothing is copied.
#![tactic(auto)]

ghost use Rattle.std.specs.Prelude.{◌≡◌, eqb, filter, length};
ghost use Rattle.actions.specs.Actions.{ActionsCall};

use orders::Played;
use plans::Plan;
use refusals::Refusal;
use spots::Network;

// An entry of an order, as C sees it and so with its kind as a number: 0 feeds, 1 drains, 2 fires. Only a feed's value counts.
#[repr(C)]
#[derive(Clone, Copy)]
pub struct Action {
    pub kind: u32,
    pub index: u32,
    pub value: u32,
}

// How many actions are drains. The same of a list of kinds stands in `orders`, for the same reason; one function for both would be longer than the two.
fn count_drains(actions: &[Action]) -> usize
    ensures { result ≡ length (filter (λ a. eqb a.kind 1) actions.now) }
{
    let mut found = 0;
    for a in actions {
        found += usize::from(a.kind == 1);
    }
    found
}

// An order of actions, each tried in turn: 16 where it has more drains than `drained` has places, and then none is. Drained values go to `drained` from its start.
#[unsafe(no_mangle)]
pub extern "C" fn cwazi_actions(
    plan: &Plan,
    network: &mut Network,
    actions: &[Action],
    drained: &mut [u32],
) -> Played
    ensures { ActionsCall plan.now network.old actions.now drained.old result network.new drained.new }
{
    let mut played = Played {
        answer: 0,
        feeds: 0,
        drains: 0,
        firings: 0,
    };
    if drained.len() < count_drains(actions) {
        played.answer = Refusal::NoRoom.number();
        return played;
    }
    // The loop of `orders` goes over three lists: one loop for both would take an iterator of entries, and be longer.
    for a in actions {
        played.play(plan, network, a.kind, a.index, a.value, drained);
    }
    played
}
