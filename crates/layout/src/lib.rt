// What the two sheets share in their layout: the trailer that points back, the labels, and bytes loaded from a sheet and put into an image.
#![tactic(auto)]

mod labels;
mod load;
mod trailer;
mod write;

pub use labels::check_labels;
pub use load::load_bytes;
pub use trailer::{Sections, find_sections, trailer_bytes};
pub use write::{Wrote, put_bytes, wrote_for_c};
