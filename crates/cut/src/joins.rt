// Check 10: each part has a queue in or a queue out.
ghost use Rattle.std.specs.Prelude.{◌≡◌, not, ◌||◌, ◌≤◌, eqb, get_or, position};
ghost use Rattle.base.specs.Checks.{lowest};
ghost use Rattle.queues.specs.Lists.{some};

// The first part that is not marked.
fn first_alone(joined: &[bool]) -> Option<usize>
    ensures { result ≡ position not joined.now }
{
    joined.iter().position(|j| !*j)
}

// The lowest part that is at neither end of a queue.
pub fn check_joined(queues: &queues::Queues) -> Option<usize>
    requires { (queues.now.count ≤ 512) × (queues.now.parts ≤ 256) }
    ensures { result ≡ lowest (λ p. some queues.now.count (λ q. eqb (get_or queues.now.from q 0) p || eqb (get_or queues.now.into q 0) p)) queues.now.parts }
{
    let mut joined = [false; 256];
    let n = queues.count;
    for p in queues.from[..n].iter().chain(&queues.into[..n]) {
        joined[*p as usize] = true;
    }
    first_alone(&joined[..queues.parts])
}
