//! Input and output by images: a line of the input, and the line that the output writes next, as texts.
#![tactic(auto)]

mod fault;
mod image;
mod in_image;
mod in_text;
mod items;
mod line;
mod out_image;

pub use fault::{IntextFault, IoFault};
pub use in_image::InImage;
pub use out_image::OutImage;
