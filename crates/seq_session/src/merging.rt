//! The scripts of all clients as one list.

ghost use Rattle.std.specs.Prelude.{◌≡◌, ◌<◌, map, length, IfOk};
ghost use Rattle.seq_session.specs.Merging.{inputs_in_order, merge_of, AreSorted, inputs_of, lines_of};

use crate::join::join;
use crate::merged::Merged;
use memory::{Items, OutOfMemory};
use script_text::{ScriptInput, ScriptRead};
use seq_state::Input;
use std::alloc::Global;

/// The inputs of all scripts by moment, then by client, then by line.
pub fn merge(alloc: Global, reads: &[ScriptRead]) -> Result<Merged, OutOfMemory>
    requires { AreSorted reads.now }
    ensures { IfOk result (λ m. m ≡ merge_of reads.now) }
{
    let order = references(alloc, reads)?;
    let inputs = inputs_of(alloc, order.as_slice())?;
    let lines = lines_of(alloc, order.as_slice())?;
    Ok(Merged {
        inputs: Items::new(inputs),
        lines: Items::new(lines),
    })
}

fn inputs_of(alloc: Global, order: &[&ScriptInput]) -> Result<Vec<Input>, OutOfMemory>
    ensures { IfOk result (λ v. v.items ≡ inputs_of (map (λ r. r.now) order.now)) }
{
    let mut inputs = Vec::new(alloc);
    for one in order {
        inputs.push(one.input.duplicate(alloc)?)?;
    }
    Ok(inputs)
}

fn lines_of(alloc: Global, order: &[&ScriptInput]) -> Result<Vec<u64>, OutOfMemory>
    ensures { IfOk result (λ v. v.items ≡ lines_of (map (λ r. r.now) order.now)) }
{
    let mut lines = Vec::new(alloc);
    for one in order {
        lines.push(one.line)?;
    }
    Ok(lines)
}

/// The inputs of all scripts, in order.
fn references<'a>(
    alloc: Global,
    reads: &'a [ScriptRead],
) -> Result<Vec<&'a ScriptInput>, OutOfMemory>
    requires { AreSorted reads.now }
    ensures { IfOk result (λ v. map (λ r. r.now) v.items ≡ inputs_in_order reads.now) }
{
    if reads.len() > 1 {
        let (left, right) = reads.split_at(reads.len() / 2);
        let left = references(alloc, left)?;
        let right = references(alloc, right)?;
        return join(alloc, left.as_slice(), right.as_slice());
    }
    if reads.is_empty() {
        return Ok(Vec::new(alloc));
    }
    all_of(alloc, &reads[0])
}

fn all_of<'a>(alloc: Global, read: &'a ScriptRead) -> Result<Vec<&'a ScriptInput>, OutOfMemory>
    ensures { IfOk result (λ v. map (λ r. r.now) v.items ≡ read.now.inputs) }
{
    let mut all = Vec::new(alloc);
    for input in read.inputs.as_slice() {
        all.push(input)?;
    }
    Ok(all)
}
