// The halves of a key as numbers, and the anchor of a key.
ghost use Rattle.std.specs.Prelude.{◌≡◌, ◌<◌};
ghost use Rattle.store_key.specs.Anchor.{anchor_of, back_half, front_half};

/// The halves of a key, each as a little-endian number: the first eight bytes, and the last eight.
pub fn halves_of(key: &[u8; 16]) -> (u64, u64)
    ensures front { result.0 ≡ front_half key.now }
    ensures back { result.1 ≡ back_half key.now }
{
    let Some((front, rest)) = key.split_first_chunk() else {
        unreachable!()
    };
    let Some((back, _)) = rest.split_first_chunk() else {
        unreachable!()
    };
    (u64::from_le_bytes(*front), u64::from_le_bytes(*back))
}

/// The anchor, from 0, that entries of this key belong to where there are so many anchors: the sum
/// of the key's two halves, each a little-endian number, wrapping at 64 bits, modulo the anchors.
pub fn anchor_of(key: &[u8; 16], anchors: u32) -> u32
    requires { 0 < anchors }
    ensures value { result ≡ anchor_of key.now anchors }
    ensures below { result < anchors }
{
    let (front, back) = halves_of(key);
    (front.wrapping_add(back) % u64::from(anchors)) as u32
}
