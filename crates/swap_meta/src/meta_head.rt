ghost use Rattle.std.specs.Prelude.{◌≡◌, ℕ, ◌+◌, ◌^◌, ◌<◌, ◌∷◌, ◌++◌, length, IfSome, IfNone};
ghost use Rattle.std.specs.Int.{w32, to_le_bytes};

/// A byte, a length behind it, and the bytes behind both. Metadata begins so, and each of its items.
#[derive(Clone, Copy)]
pub struct Head<'a> {
    pub mark: u8,
    pub length: u32,
    pub rest: &'a [u8],
}

/// How many bytes a mark and a length take.
pub const HEAD: usize = 5;

/// Takes a mark and a length off the front, or `None` for fewer than five bytes.
pub fn split_head(bytes: &[u8]) -> Option<Head<'_>>
    ensures found { IfSome result (λ head.
        bytes.now ≡ head.mark ∷ (to_le_bytes w32 head.length ++ head.rest.now)) }
    ensures fits { IfSome result (λ head. head.length < 2 ^ 32) }
    ensures none { IfNone result (length bytes.now < HEAD) }
{
    let [mark, a, b, c, d, rest @ ..] = bytes else {
        return None;
    };
    Some(Head {
        mark: *mark,
        length: u32::from_le_bytes([*a, *b, *c, *d]),
        rest,
    })
}
