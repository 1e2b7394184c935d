//! Sorted inputs joined two by two.

ghost use Rattle.std.specs.Prelude.{◌≡◌, ◌<◌, ◌+◌, ◌^◌, map, length, IfOk};
ghost use Rattle.seq_session.specs.Merging.{not_after, merged_with};

use memory::OutOfMemory;
use script_text::ScriptInput;
use std::alloc::Global;

/// By moment, then by client, then by line.
fn not_after(a: &ScriptInput, b: &ScriptInput) -> bool
    ensures { result ≡ not_after a.now b.now }
{
    let left = (a.input.moment, a.input.actor.number(), a.line);
    let right = (b.input.moment, b.input.actor.number(), b.line);
    left.0 < right.0
        || (left.0 == right.0 && (left.1 < right.1 || (left.1 == right.1 && left.2 <= right.2)))
}

/// Two sorted lists as one.
pub(crate) fn join<'a>(
    alloc: Global,
    left: &[&'a ScriptInput],
    right: &[&'a ScriptInput],
) -> Result<Vec<&'a ScriptInput>, OutOfMemory>
    ensures { IfOk result (λ v. map (λ r. r.now) v.items
        ≡ merged_with (map (λ r. r.now) left.now) (map (λ r. r.now) right.now)) }
{
    let mut out = Vec::new(alloc);
    let mut i = 0;
    let mut j = 0;
    while i < left.len() && j < right.len() {
        if not_after(left[i], right[j]) {
            out.push(left[i])?;
            i += 1;
        } else {
            out.push(right[j])?;
            j += 1;
        }
    }
    out.extend_from_slice(&left[i..])?;
    out.extend_from_slice(&right[j..])?;
    Ok(out)
}
