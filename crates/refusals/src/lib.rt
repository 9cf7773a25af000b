// What refuses a call of the stepper or on a network, and its number in the outline's table.
#![tactic(auto)]

ghost use Rattle.std.specs.Prelude.{◌≡◌};
ghost use Rattle.refusals.specs.Numbers.{number, answer};

// What refuses a call.
#[derive(Clone, Copy, PartialEq, Eq)]
pub enum Refusal {
    // no such input, output, rule, queue, part or kind of entry; lists of another length than is asked; more rounds than a run may have
    NoSuch,
    // a value that is not below 2^w
    TooLarge,
    // a rule that is not ready, a queue that is full (feed) or empty (drain)
    NotNow,
    // a lent list that is too short
    NoRoom,
}

impl Refusal {
    // Its number in the outline's table.
    pub fn number(self) -> u32
        ensures { result ≡ number self }
    {
        match self {
            Refusal::NoSuch => 12,
            Refusal::TooLarge => 13,
            Refusal::NotNow => 14,
            Refusal::NoRoom => 16,
        }
    }
}

// A call's answer by its number, as the C interface gives it: 0 where it is done.
pub fn answer(called: Result<(), Refusal>) -> u32
    ensures { result ≡ answer called }
{
    match called {
        Ok(()) => 0,
        Err(refusal) => refusal.number(),
    }
}
