// The cut sheet: its reader and its writer.
#![tactic(auto)]

mod load;
mod read;
mod write;

pub use read::{CutRead, read_cut, read_for_c};
pub use write::write_cut;
