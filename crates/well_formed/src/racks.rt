// Racks whose disks are all equal.
ghost use Rattle.std.specs.Prelude.{◌≡◌};
ghost use Rattle.placement.specs.Rack.{all_equal};
ghost use Rattle.placement.specs.Packed.{disks_in};

// Whether every disk is the first one.
pub fn all_equal(rack: &[u64]) -> bool
    ensures { result ≡ all_equal (disks_in rack.now) }
{
    let [first, rest @ ..] = rack else {
        return true;
    };
    rest.iter().all(|disk| disk == first)
}
