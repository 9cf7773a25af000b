// Commands of `trace` played on a network: bytes of input in, bytes of output out.
#![tactic(auto)]

ghost use Rattle.std.specs.Prelude.{◌≤◌, length};
ghost use Rattle.traces.specs.Traces.{LinePlayed, BytePlayed, BlockPlayed};

use lines::Reading;
use plans::Plan;
use spots::Network;

// What a block of input gives: how many of its bytes were read, how many bytes were written, and what has been read of the line that it ends in.
#[derive(Clone, Copy)]
pub struct Progress {
    pub read: usize,
    pub wrote: usize,
    pub reading: Reading,
}

// What a byte gives: how many bytes were written, and what has been read of its line.
#[derive(Clone, Copy)]
struct Step {
    wrote: usize,
    reading: Reading,
}

// Plays a line that is at its end, and writes its answer from byte `at` on.
fn line(plan: &Plan, network: &mut Network, reading: Reading, out: &mut [u8], at: usize) -> usize
    ensures { LinePlayed plan.now network.old reading out.old at result network.new out.new × (result ≤ 42) }
{
    if !lines::is_command(reading) {
        return lines::put_answer(out, at, 17);
    }
    if reading.kind == 3 {
        let fired = rounds::round(plan, network);
        return lines::put_value(out, at, 0, fired as u64);
    }
    let drains = reading.kind == 1;
    match orders::act(plan, network, reading.kind, reading.index, reading.value) {
        Ok(value) if drains => lines::put_value(out, at, 0, value as u64),
        Ok(_) => lines::put_answer(out, at, 0),
        Err(refusal) => lines::put_answer(out, at, refusal.number()),
    }
}

// Takes one byte of the input.
fn byte(
    plan: &Plan,
    network: &mut Network,
    reading: Reading,
    byte: u8,
    out: &mut [u8],
    at: usize,
) -> Step
    ensures { BytePlayed plan.now network.old reading byte out.old at result network.new out.new × (result.wrote ≤ 42) }
{
    let ends = byte == b'\n';
    if ends {
        let wrote = line(plan, network, reading, out, at);
        let reading = lines::no_bytes();
        Step { wrote, reading }
    } else {
        let reading = lines::read_byte(reading, byte);
        Step { wrote: 0, reading }
    }
}

// Takes the bytes of a block of input, one after the other, as long as `out` has room for one more answer, which is at most 42 bytes, and writes the answers to
// `out` from its start.
pub fn block(
    plan: &Plan,
    network: &mut Network,
    reading: Reading,
    input: &[u8],
    out: &mut [u8],
) -> Progress
    ensures { BlockPlayed plan.now network.old reading input.now out.old result network.new out.new × (result.read ≤ length input.now) × (result.wrote ≤ length out.new) }
{
    let mut wrote = 0;
    let mut line = reading;
    for (read, x) in input.iter().enumerate() {
        if out.len() - wrote < 42 {
            return Progress {
                read,
                wrote,
                reading: line,
            };
        }
        let step = byte(plan, network, line, *x, out, wrote);
        wrote += step.wrote;
        line = step.reading;
    }
    Progress {
        read: input.len(),
        wrote,
        reading: line,
    }
}
