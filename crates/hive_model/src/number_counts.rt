//! How many keys have each number.

ghost use Rattle.std.specs.Prelude.{◌≡◌, ◌+◌, ◌-◌, ◌<◌, ◌≤◌, ℕ, cond, nat_eq, OnOk, OnErr};
ghost use Rattle.hive_model.specs.NumberCounts.{count_of};

use indexmap::IndexMap;
use std::alloc::AllocError;

/// The number of keys that have this number.
pub(crate) fn count_of(counts: &IndexMap<u64, u32>, number: u64) -> u32
    ensures { result ≡ count_of counts.now number }
{
    counts.get(&number).copied().unwrap_or(0)
}

/// Counts one more key with this number. If memory runs out, the counts do not change.
pub(crate) fn count_up(counts: &mut IndexMap<u64, u32>, number: u64) -> Result<(), AllocError>
    requires { count_of counts.old number < 10000 }
    ensures more { OnOk result ((n : ℕ) → count_of counts.new n
        ≡ cond (nat_eq number n) (count_of counts.old number + 1) (count_of counts.old n)) }
    ensures refused { OnErr result (counts.new.entries ≡ counts.old.entries) }
{
    let count = count_of(counts, number);
    match counts.insert(number, count + 1) {
        Ok(_) => Ok(()),
        Err(_) => Err(AllocError),
    }
}

/// Counts one key less with this number. A number that no key has is removed.
pub(crate) fn count_down(counts: &mut IndexMap<u64, u32>, number: u64)
    requires { 1 ≤ count_of counts.old number }
    ensures { (n : ℕ) → count_of counts.new n
        ≡ cond (nat_eq number n) (count_of counts.old number - 1) (count_of counts.old n) }
{
    let count = count_of(counts, number);
    if count == 1 {
        counts.swap_remove(&number);
    } else {
        let _ = counts.insert(number, count - 1);
    }
}
