// Counts: how often each retrier of a state was used, and how often each state was invoked.
ghost use Rattle.std.specs.Prelude.{◌≡◌, ◌<◌, ◌+◌, ◌^◌, replicate, slice_set, slice_index, IfOk};

use std::alloc::{AllocError, Global};

/// So many zeros.
pub fn zeros(alloc: Global, count: usize) -> Result<Vec<u32>, AllocError>
    ensures { IfOk result (λ v. v.items ≡ replicate count 0) }
{
    let mut zeros = Vec::new(alloc);
    for _ in 0..count {
        zeros.push(0)?;
    }
    Ok(zeros)
}

/// Raises the count of this number, where there is one.
pub fn raise_at(counts: &mut Vec<u32>, number: usize)
    requires { slice_index counts.old.items number < 2 ^ 31 }
    ensures { counts.new.items
        ≡ slice_set counts.old.items number (slice_index counts.old.items number + 1) }
{
    if number < counts.len() {
        counts[number] += 1;
    }
}
