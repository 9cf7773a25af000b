// The net sheet: its reader and its writer.
#![tactic(auto)]

mod load;
mod put;
mod read;
mod write;

pub use load::record_at;
pub use read::{NetRead, net_sections, read_for_c, read_net};
pub use write::write_net;
