// Numbers in an image, the low byte first.
ghost use Rattle.std.specs.Prelude.{◌≡◌, ◌+◌, ◌≤◌, length, take, drop};
ghost use Rattle.card.specs.Bytes.{u16_le, u32_le};

/// The `N` bytes from `at` on.
pub fn bytes_at<const N: usize>(bytes: &[u8], at: usize) -> &[u8; N]
    requires { at + N ≤ length bytes.now }
    ensures bytes { result.now ≡ take N (drop at bytes.now) }
    ensures sized { length result.now ≡ N }
{
    bytes[at..at + N].first_chunk().unwrap()
}

#[tactic(auto, using(crate::proofs::Cuts::u16_read))]
pub fn u16_at(bytes: &[u8], at: usize) -> u16
    requires { at + 2 ≤ length bytes.now }
    ensures { result ≡ u16_le bytes.now at }
{
    u16::from_le_bytes(*bytes_at(bytes, at))
}

#[tactic(auto, using(crate::proofs::Cuts::u32_read))]
pub fn u32_at(bytes: &[u8], at: usize) -> u32
    requires { at + 4 ≤ length bytes.now }
    ensures { result ≡ u32_le bytes.now at }
{
    u32::from_le_bytes(*bytes_at(bytes, at))
}
