// The items of each bucket as a list: each bucket's last item, and for each item the one before it in its bucket.
ghost use Rattle.std.specs.Prelude.{◌≡◌, ℕ, ◌^◌, ◌<◌, length, IfOk, slice_index};
ghost use Rattle.schedule_plan.specs.Forest.{AreLinks};

use cnf_base::OutOfMemory;
use std::alloc::Global;

/// Each bucket's last item, and for each item the one before it in its bucket.
#[derive(Drop)]
pub(crate) struct Links {
    pub(crate) last: Vec<Option<u32>>,
    pub(crate) before: Vec<Option<u32>>,
}

/// Links the items, given the bucket of each.
pub(crate) fn linked(alloc: Global, buckets: &[u32], count: usize) -> Result<Links, OutOfMemory>
    requires few { length buckets.now < 2 ^ 32 }
    requires within { (item : ℕ) → item < length buckets.now → slice_index buckets.now item < count }
    ensures { IfOk result (AreLinks buckets.now count) }
{
    let mut last: Vec<Option<u32>> = vec![in alloc; None; count]?;
    let mut before = Vec::new(alloc);
    for (item, bucket) in buckets.iter().enumerate() {
        before.push(last[*bucket as usize])?;
        last[*bucket as usize] = Some(item as u32);
    }
    Ok(Links { last, before })
}
