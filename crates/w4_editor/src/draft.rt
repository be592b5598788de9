//! Drafts: the inputs of a recording with a kept list, and what an edit makes of one.

ghost use Rattle.std.specs.Prelude.{◌≡◌, ◌+◌, ◌<◌, ◌≤◌, All, IfOk, length};
ghost use Rattle.w4_defs.specs.KeptList.{kept_entries};
ghost use Rattle.w4_defs.specs.Session.{delete_draft, insert_draft, set_draft};
ghost use Rattle.w4_editor.specs.Draft.{inputs_after_overwrite, overwrite_draft};

use crate::kept::Kept;
use crate::kept_list::{
    drop_double, move_down_above, move_up_above, share_all, unlink_above, unlink_between,
};
use std::alloc::{AllocError, Global};
use std::marker::Model;
use std::mem;
use w4_defs::Input;
use w4_record::Recording;

/// Inputs with their kept list. A contract sees both.
#[derive(Drop)]
pub struct Draft {
    pub(crate) inputs: Vec<Input>,
    pub(crate) kept: Vec<Kept>,
}

impl Model for Draft {
    ghost use Rattle.w4_defs.specs.KeptList.{Entry};
    ghost use Rattle.w4_defs.specs.Session.{Draft};

    ghost Value = { Draft Entry };

    ghost view = { λ d. record { inputs = d.inputs.items; kept = d.kept.items } };
}

/// The draft with another input `k`.
pub(crate) fn set_draft(
    alloc: Global,
    inputs: &[Input],
    kept: &[Kept],
    k: usize,
    input: Input,
) -> Result<Draft, AllocError>
    requires { k < length inputs.now }
    ensures { IfOk result (λ draft. draft
        ≡ set_draft kept_entries k input (record { inputs = inputs.now; kept = kept.now })) }
{
    let mut inputs = Vec::from_slice(alloc, inputs)?;
    inputs[k] = input;
    let mut kept = share_all(alloc, kept)?;
    unlink_above(kept.as_mut_slice(), k);
    Ok(Draft { inputs, kept })
}

/// The draft with these inputs from input `k` on.
pub(crate) fn overwrite_draft(
    alloc: Global,
    inputs: &[Input],
    kept: &[Kept],
    k: usize,
    written: &[Input],
) -> Result<Draft, AllocError>
    requires start { k ≤ length inputs.now }
    requires few { k + length written.now ≤ 36000 }
    ensures { IfOk result (λ draft. draft
        ≡ overwrite_draft k written.now (record { inputs = inputs.now; kept = kept.now })) }
{
    let inputs = overwritten(alloc, inputs, k, written)?;
    let mut kept = share_all(alloc, kept)?;
    unlink_between(kept.as_mut_slice(), k, k + written.len());
    Ok(Draft { inputs, kept })
}

/// The inputs with these from input `k` on.
fn overwritten(
    alloc: Global,
    inputs: &[Input],
    k: usize,
    written: &[Input],
) -> Result<Vec<Input>, AllocError>
    requires start { k ≤ length inputs.now }
    requires few { k + length written.now ≤ 36000 }
    ensures { IfOk result (λ all. all.items ≡ inputs_after_overwrite k written.now inputs.now) }
{
    let end = k + written.len();
    let mut all = Vec::with_capacity(alloc, end.max(inputs.len()))?;
    all.extend_from_slice(&inputs[..k])?;
    all.extend_from_slice(written)?;
    all.extend_from_slice(&inputs[end.min(inputs.len())..])?;
    Ok(all)
}

/// The draft with an input before input `k`.
pub(crate) fn insert_draft(
    alloc: Global,
    inputs: &[Input],
    kept: &[Kept],
    k: usize,
    input: Input,
) -> Result<Draft, AllocError>
    requires input { k ≤ length inputs.now }
    requires places { All (λ x. x.place < usize.MAX) kept.now }
    ensures { IfOk result (λ draft. draft
        ≡ insert_draft kept_entries k input (record { inputs = inputs.now; kept = kept.now })) }
{
    let mut inputs = Vec::from_slice(alloc, inputs)?;
    inputs.insert(k, input)?;
    let mut kept = share_all(alloc, kept)?;
    let entries = kept.as_mut_slice();
    unlink_above(entries, k);
    move_up_above(entries, k);
    Ok(Draft { inputs, kept })
}

/// The draft without input `k`.
pub(crate) fn delete_draft(
    alloc: Global,
    inputs: &[Input],
    kept: &[Kept],
    k: usize,
) -> Result<Draft, AllocError>
    requires { k < length inputs.now }
    ensures { IfOk result (λ draft. draft
        ≡ delete_draft kept_entries k (record { inputs = inputs.now; kept = kept.now })) }
{
    let mut inputs = Vec::from_slice(alloc, inputs)?;
    inputs.remove(k);
    let mut kept = share_all(alloc, kept)?;
    drop_double(&mut kept, k);
    let left = kept.as_mut_slice();
    unlink_above(left, k);
    move_down_above(left, k);
    Ok(Draft { inputs, kept })
}

/// Makes a draft the current one, and returns the one before. Takes no memory.
pub(crate) fn exchange(recording: &mut Recording, kept: &mut Vec<Kept>, draft: Draft) -> Draft
    requires { length draft.inputs ≤ 36000 }
    ensures before { result ≡ record { inputs = recording.old.frames; kept = kept.old.items } }
    ensures recording { recording.new ≡ record {
      digest = recording.old.digest;
      budget = recording.old.budget;
      disk = recording.old.disk;
      frames = draft.inputs;
    } }
    ensures kept { kept.new.items ≡ draft.kept }
{
    Draft {
        inputs: recording.replace_frames(draft.inputs),
        kept: mem::replace(kept, draft.kept),
    }
}
