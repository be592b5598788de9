//! The image of a page, or of a state's page, as a PPM file (Netpbm, raw PPM): 160 by 160 pixels, 76,815
//! bytes. It shows the page's first 6,560 bytes, its screen, and can be made from them later.
#![tactic(auto)]

pub mod ppm;
pub mod state;

pub use ppm::{IMAGE_LEN, SCREEN_LEN, Screen, image_into, screen_into};
pub use state::{ppm_into, screen_of};
