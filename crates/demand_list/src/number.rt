// Numbers of 32 bits in bytes, least significant byte first.
ghost use Rattle.std.specs.Prelude.{◌≡◌};
ghost use Rattle.placement.specs.Records.{number32 as number_at};

// The number in the four bytes from `at` on. Bytes behind the last one count as 0.
pub fn number32(bytes: &[u8], at: usize) -> u32
    ensures { result ≡ number_at bytes.now at }
{
    if bytes.len() <= at {
        return 0;
    }
    let byte = |place: usize| bytes.get(place).copied().unwrap_or(0);
    u32::from_le_bytes([byte(at), byte(at + 1), byte(at + 2), byte(at + 3)])
}
