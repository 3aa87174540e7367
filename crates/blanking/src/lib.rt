// What blanker and preview do with the ranges that rows of starts and ends leave: zero their bytes, or count those that are not 0.
#![tactic(auto)]

ghost use Rattle.std.specs.Prelude.{◌≡◌, ◌≤◌, length, map};
ghost use Rattle.mdf4.specs.Layout.{compute_gaps};
ghost use Rattle.mdf4.specs.Blank.{zeroed, nonzero};
ghost use Rattle.tables.specs.Gaps.{range_of};
ghost use Rattle.clear_ranges.specs.Sweep.{Inner};
ghost use Rattle.blanking.specs.Counts.{Counted};

use tables::{Gaps, PAIR_WORDS};

// The bytes of the recording in the ranges that the rows leave become 0, and no other.
pub fn zero_ranges(rows: &[[u64; PAIR_WORDS]], data: &mut [u8])
    requires { Inner (length «data».old) (compute_gaps (length «data».old) 0 (map range_of rows.now)) }
    ensures { «data».new ≡ zeroed (compute_gaps (length «data».old) 0 (map range_of rows.now)) 0 «data».old }
{
    for range in Gaps::new(rows, data.len() as u64) {
        data[range.start as usize..range.end as usize].fill(0);
    }
}

// How many bytes are not 0.
fn count_nonzero(bytes: &[u8]) -> u64
    ensures { result ≡ nonzero bytes.now (0, length bytes.now) }
{
    bytes.iter().filter(|b| **b != 0).count() as u64
}

// A count for each of the ranges, in a table that has a word for each, and their total.
// The words are stored by their place: what `zip` with `counts.iter_mut()` leaves in them cannot be proved.
pub fn put_counts(data: &[u8], rows: &[[u64; PAIR_WORDS]], counts: &mut [u64]) -> u64
    requires { Inner (length «data».now) (compute_gaps (length «data».now) 0 (map range_of rows.now)) × (length (compute_gaps (length «data».now) 0 (map range_of rows.now)) ≤ length counts.old) }
    ensures { Counted «data».now (compute_gaps (length «data».now) 0 (map range_of rows.now)) counts.old counts.new result }
{
    let mut total = 0;
    for (at, range) in Gaps::new(rows, data.len() as u64).enumerate() {
        let count = count_nonzero(&data[range.start as usize..range.end as usize]);
        counts[at] = count;
        total += count;
    }
    total
}
