// The cycles of a netlist, by one call for all and by a call for each, and what is printed of them.
use crate::lists::{MARK, marked, put_first, put_registers};
use netlist::Netlist;
use refusals::Refusal;
use run_text::{put_either, put_number, put_word};
use std::io;
use std::io::Write;

// What is run: a netlist, so many cycles, and the inputs of all.
#[derive(Drop)]
pub struct Case<'a> {
    pub net: &'a Netlist,
    pub cycles: u32,
    pub ins: &'a [u32],
}

// Registers and outputs.
#[derive(Drop)]
struct State {
    regs: [u32; 1024],
    outs: [u32; 1024],
}

impl State {
    // The first registers, and no output.
    fn first(net: &Netlist) -> State {
        let mut regs = [MARK; 1024];
        cycles::first_registers(net, &mut regs);
        State {
            regs,
            outs: [MARK; 1024],
        }
    }
}

// The INs of a netlist.
fn ins_of(net: &Netlist) -> usize {
    net.code
        .iter()
        .take(net.nodes)
        .filter(|code| **code == 0x00)
        .count()
}

// Cycle after cycle, each with its own part of the inputs and of the outputs. Ends with the first that is refused. The parts are cut by their places, and no
// `chunks` are taken: a drawing may have no IN or no output.
fn one_by_one(case: &Case, state: &mut State) -> Result<(), Refusal> {
    let per = ins_of(case.net);
    for cycle in 0..case.cycles {
        let at = (cycle as usize).saturating_mul(per).min(case.ins.len());
        let next = at.saturating_add(per).min(case.ins.len());
        let put = (cycle as usize).saturating_mul(case.net.outputs).min(1024);
        let full = put.saturating_add(case.net.outputs).min(1024);
        cycles::step(
            case.net,
            &mut state.regs,
            &case.ins[at..next],
            &mut state.outs[put..full],
        )?;
    }
    Ok(())
}

// Runs the cycles one by one, and prints whether registers and outputs come out as they did at once.
fn again<W: Write>(out: &mut W, case: &Case, once: &State) -> io::Result<()> {
    let mut state = State::first(case.net);
    let done = one_by_one(case, &mut state).is_ok();
    put_either(
        out,
        done & (state.regs == once.regs) & (state.outs == once.outs),
        b"same",
        b"DIFFERS",
    )
}

// Prints the outputs, the registers, and whether every place past the outputs still holds the mark.
fn show<W: Write>(out: &mut W, case: &Case, state: &State) -> io::Result<()> {
    let end = case.net.outputs.saturating_mul(case.cycles as usize);
    put_word(out, b"outputs")?;
    put_first(out, &state.outs, end)?;
    put_word(out, b"registers")?;
    put_registers(out, &case.net.code, case.net.nodes, &state.regs)?;
    put_either(out, marked(&state.outs, end), b"kept", b"SPOILT")
}

// Prints whether the registers are still the first ones, and whether every place of the list still holds the mark.
fn show_refused<W: Write>(out: &mut W, net: &Netlist, state: &State) -> io::Result<()> {
    let first = State::first(net);
    put_either(out, first.regs == state.regs, b"kept", b"CHANGED")?;
    put_either(out, marked(&state.outs, 0), b"kept", b"SPOILT")
}

// Runs the cycles both ways, on a list of so many places, and prints what came of it.
pub fn both<W: Write>(out: &mut W, case: &Case, room: usize) -> io::Result<()> {
    let mut state = State::first(case.net);
    let answer = cycles::steps(
        case.net,
        &mut state.regs,
        case.cycles,
        case.ins,
        &mut state.outs[..room.min(1024)],
    );
    put_number(out, u64::from(refusals::answer(answer)))?;
    if answer.is_ok() {
        show(out, case, &state)?;
        again(out, case, &state)
    } else {
        show_refused(out, case.net, &state)
    }
}
