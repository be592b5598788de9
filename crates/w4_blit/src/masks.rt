//! Words of sixteen two-bit digits, some of them masks: each of a mask's digits is 0 or 3.

ghost use Rattle.w4_blit.specs.Masks.{IsMask};

/// Sixteen palette indices of two bits, the first in the lowest. The mask has ones where one is given.
#[derive(Clone, Copy)]
pub(crate) struct Strip {
    pub indices: u32,
    pub mask: u32,
    pub ghost given: { IsMask mask },
}

/// The low and the high bits of sixteen pixel values, as masks.
#[derive(Clone, Copy)]
pub(crate) struct Bits {
    pub low: u32,
    pub high: u32,
    pub ghost low_bits: { IsMask low },
    pub ghost high_bits: { IsMask high },
}
