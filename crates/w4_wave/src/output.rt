//! What one channel gives: at one tick, and in a whole frame.

ghost use Rattle.std.specs.Prelude.{◌≡◌, if◌then◌else◌, pos};
ghost use Rattle.w4_defs.specs.Sound.{on_left, on_right};

/// How many ticks a frame has.
pub const TICKS: usize = 735;

/// What a channel gives to each side at a tick, and how far its phase goes on.
#[derive(Clone, Copy)]
pub struct Output {
    pub left: i16,
    pub right: i16,
    pub step: u16,
}

/// What a channel that isn't heard gives.
pub const UNHEARD: Output = Output {
    left: 0,
    right: 0,
    step: 0,
};

/// A value on the sides that a pan has.
pub fn on_sides(value: i16, pan: u8, step: u16) -> Output
    ensures left { result.left ≡ (if on_left pan then value else pos 0) }
    ensures right { result.right ≡ (if on_right pan then value else pos 0) }
    ensures step { result.step ≡ step }
{
    Output {
        left: if pan == 2 { 0 } else { value },
        right: if pan == 1 { 0 } else { value },
        step,
    }
}

/// What a channel gives to each side at the ticks of a frame, and the phase and the noise register after
/// them. Only channel 3 moves the register.
#[derive(Drop)]
pub struct Part {
    pub left: [i16; TICKS],
    pub right: [i16; TICKS],
    pub phase: u16,
    pub register: u16,
}
