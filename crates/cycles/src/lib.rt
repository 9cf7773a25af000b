// The cycles layer's code: the plain stepper.
#![tactic(auto)]

mod calls;
mod cycle;
mod inputs;
mod nodes;

pub use calls::{first_registers, step, steps};
