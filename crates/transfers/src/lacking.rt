// The new copies that the old plan hasn't on the same disk: both lists of keys ascend, so that one
// pass over both finds them.
ghost use Rattle.std.specs.Prelude.{◌≡◌, map, ◌≤◌, ◌<◌, length, take, nat_le, position};
ghost use Rattle.placement.specs.WellFormed.{Each};
ghost use Rattle.transfer_schedule.specs.Stored.{is_stored};
ghost use Rattle.transfer_schedule.specs.Schedule.{lacking};
ghost use Rattle.transfer_schedule.specs.Words.{InOrder};
ghost use Rattle.transfers.specs.Keys.{stored_in, stored_at, PassedTo};

// The first place whose key is not below `key`.
fn first_not_below(keys: &[u64], key: u64) -> Option<usize>
    ensures { result ≡ position (λ k. nat_le key k) keys.now }
{
    keys.iter().position(|k| key <= *k)
}

// The first place from `at` on whose key is not below `key`, or the end.
fn pass_lower(old: &[u64], at: usize, key: u64) -> usize
    requires { (at ≤ length old.now) × Each (λ k. k < key) (take at old.now) }
    ensures { PassedTo old.now key result }
{
    let behind = &old[at..];
    match first_not_below(behind, key) {
        Some(passed) => at + passed,
        None => old.len(),
    }
}

// Whether the old plan has the copy of a key: the key stands at the place that was passed to.
fn stands_at(old: &[u64], at: usize, key: u64) -> bool
    requires { InOrder (map stored_in old.now) × PassedTo old.now key at }
    ensures { result ≡ is_stored (stored_in key) (map stored_in old.now) }
{
    at < old.len() && old[at] == key
}

// Puts the keys of the new copies that the old plan lacks in front, and answers how many there are.
// The old keys before `at` are below the next one.
pub(crate) fn put_lacking(old: &[u64], new: &[u64], keys: &mut [u64]) -> usize
    requires { InOrder (map stored_in old.now) × InOrder (map stored_in new.now)
        × (length new.now ≤ length keys.old) }
    ensures keys_after { stored_at result keys.new ≡ lacking (map stored_in old.now) (map stored_in new.now) }
    ensures upper_bound { result ≤ length new.now }
{
    let mut n = 0;
    let mut at = 0;
    for key in new {
        at = pass_lower(old, at, *key);
        if !stands_at(old, at, *key) {
            keys[n] = *key;
            n += 1;
        }
    }
    n
}
