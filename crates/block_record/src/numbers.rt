// Numbers in the midst of bytes, the highest byte first.
ghost use Rattle.std.specs.Prelude.{◌≡◌, ◌+◌, ◌≤◌, length, take, drop};
ghost use Rattle.block_record.specs.Bytes.{be32, be64, IsDigest};

/// The number in the four bytes from a place on.
pub fn u32_at(bytes: &[u8], at_byte: usize) -> u32
    requires { at_byte + 4 ≤ length bytes.now }
    ensures { take 4 (drop at_byte bytes.now) ≡ be32 result }
{
    let mut word = [0; 4];
    word.copy_from_slice(&bytes[at_byte..at_byte + 4]);
    u32::from_be_bytes(word)
}

/// The number in the eight bytes from a place on.
pub fn u64_at(bytes: &[u8], at_byte: usize) -> u64
    requires { at_byte + 8 ≤ length bytes.now }
    ensures { take 8 (drop at_byte bytes.now) ≡ be64 result }
{
    let mut word = [0; 8];
    word.copy_from_slice(&bytes[at_byte..at_byte + 8]);
    u64::from_be_bytes(word)
}

/// The 32 bytes from a place on.
pub fn digest_at(bytes: &[u8], at_byte: usize) -> [u8; 32]
    requires { at_byte + 32 ≤ length bytes.now }
    ensures bytes { take 32 (drop at_byte bytes.now) ≡ result }
    ensures digest { IsDigest result }
{
    let mut digest = [0; 32];
    digest.copy_from_slice(&bytes[at_byte..at_byte + 32]);
    digest
}
