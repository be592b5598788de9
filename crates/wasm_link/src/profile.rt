//! The nine causes, in their order.

ghost use Rattle.std.specs.Prelude.{◌≡◌, MatchResult, None, Some, drop, option_map};
ghost use Rattle.w4_defs.specs.Profile.{causes, first_cause, profile_refusal};
ghost use Rattle.w4_defs.specs.declared.refusal.ProfileRefusal.TheVariants.{SegmentOutside};

use crate::condition::{Condition, any};
use crate::exports::{IsUpdate, IsWrongEntry};
use crate::floats::has_floats;
use crate::imports::{IsMemory, unknown_import, wrong_import};
use crate::locals::has_many_locals;
use crate::segments::first_outside;
use w4_defs::{Limits, ProfileRefusal};
use wasm_tree::Code;

/// Judges a module by the profile. It takes no memory.
///
/// Ok if and only if none of the nine causes holds; the refusal is that of the first that does.
pub fn check_profile(code: &Code) -> Result<(), ProfileRefusal>
    ensures { MatchResult result (λ _. profile_refusal code.now ≡ None)
        (λ refusal. profile_refusal code.now ≡ Some refusal) }
{
    match refusal(code) {
        Some(refusal) => Err(refusal),
        None => Ok(()),
    }
}

fn refusal(code: &Code) -> Option<ProfileRefusal>
    ensures { result ≡ profile_refusal code.now }
{
    if has_floats(code) {
        return Some(ProfileRefusal::Floats);
    }
    if has_many_locals(code) {
        return Some(ProfileRefusal::TooManyLocals);
    }
    if any(&IsLarge, code.tables()) {
        return Some(ProfileRefusal::TableTooLarge);
    }
    import_refusal(code)
}

/// The fourth cause and those after it.
fn import_refusal(code: &Code) -> Option<ProfileRefusal>
    ensures { result ≡ first_cause (drop 3 (causes code.now)) }
{
    match unknown_import(code) {
        Some(refusal) => Some(refusal),
        None => match wrong_import(code) {
            Some(refusal) => Some(refusal),
            None => last_refusal(code),
        },
    }
}

/// The sixth cause and those after it.
fn last_refusal(code: &Code) -> Option<ProfileRefusal>
    ensures { result ≡ first_cause (drop 5 (causes code.now)) }
{
    if !any(&IsMemory, code.imports()) {
        return Some(ProfileRefusal::NoMemory);
    }
    if !any(&IsUpdate, code.exports()) {
        return Some(ProfileRefusal::NoUpdate);
    }
    if any(&IsWrongEntry { code }, code.exports()) {
        return Some(ProfileRefusal::WrongEntry);
    }
    segment_refusal(first_outside(code))
}

fn segment_refusal(segment: Option<usize>) -> Option<ProfileRefusal>
    ensures { result ≡ option_map SegmentOutside segment }
{
    match segment {
        Some(i) => Some(ProfileRefusal::SegmentOutside(i)),
        None => None,
    }
}

/// A table of more than 65,536 elements at least.
#[derive(Drop)]
struct IsLarge;

impl Condition<Limits> for IsLarge {
    ghost use Rattle.std.specs.Prelude.{nat_lt};

    ghost is_met = { λ _ l. nat_lt 65536 l.least };

    fn is_met(&self, limits: &Limits) -> bool {
        65536 < limits.least
    }
}
