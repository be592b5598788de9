//! The page: the one memory of a cart.

/// The 65,536 bytes of the page.
pub type PageBytes = [u8; 65536];
