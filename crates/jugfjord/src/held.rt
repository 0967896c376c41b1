// The disks that a packed rack holds, lent on to what takes numbers.
ghost use Rattle.std.specs.Prelude.{◌≡◌};
ghost use Rattle.placement.specs.Packed.{disks_in};
ghost use Rattle.disk_entries.specs.Entries.{held_disks};

use disk_entries::{PackedDisks, held_count};

// The numbers of the disks held, as a slice of the rack.
#[tactic(auto, using(disk_entries::proofs::Held::held_same))]
pub(crate) fn held(packed: &PackedDisks) -> &[u64]
    ensures { disks_in result.now ≡ held_disks packed.now }
{
    &packed.disks[..held_count(*packed)]
}
