// Digests of numbers in their order.
#[derive(Clone, Copy, PartialEq, Eq)]
pub(crate) struct Digest(pub(crate) u64);

impl Digest {
    // The digest of bytes.
    pub(crate) fn of_bytes(bytes: &[u8]) -> Digest {
        bytes
            .iter()
            .fold(Digest(0), |digest, byte| digest.with(u64::from(*byte)))
    }

    // With one number more: 31 times the digest so far and the number, in 64 bits.
    pub(crate) fn with(self, n: u64) -> Digest {
        Digest(self.0.wrapping_mul(31).wrapping_add(n))
    }
}
