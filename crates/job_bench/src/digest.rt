//! The digest of what a job wrote.

/// A digest of bytes: the hash FNV-1a of Fowler, Noll and Vo, of 64 bits, and their number.
#[derive(Clone, Copy)]
pub(crate) struct Digest {
    pub hash: u64,
    pub bytes: u64,
}

impl Digest {
    pub(crate) fn new() -> Digest {
        Digest {
            hash: 0xcbf2_9ce4_8422_2325,
            bytes: 0,
        }
    }

    /// Takes further bytes in.
    pub(crate) fn take(&mut self, bytes: &[u8]) {
        for byte in bytes {
            self.hash = (self.hash ^ u64::from(*byte)).wrapping_mul(0x100_0000_01b3);
            self.bytes = self.bytes.wrapping_add(1);
        }
    }
}
