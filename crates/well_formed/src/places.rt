// Unused places of a table.
ghost use Rattle.std.specs.Prelude.{◌≡◌};
ghost use Rattle.plan_text.specs.Held.{all_zero};

// Whether every place is zero.
pub fn all_zero(places: &[u64]) -> bool
    ensures { result ≡ all_zero places.now }
{
    places.iter().all(|place| *place == 0)
}
