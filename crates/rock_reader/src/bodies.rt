// What a slot that was read adds to a body.
ghost use Rattle.rock_reader.specs.Bodies.{HasUrl, IsOfEntry, body_of};
ghost use Rattle.slot_cell.specs.declared.header.TheConstants.{HEADER_SIZE};
ghost use Rattle.std.specs.Prelude.{IfSome, IsSome, [], drop, length, ◌+◌, ◌≡◌, ◌≢◌, ◌≤◌, ◌↔◌};
ghost use Rattle.swap_meta.specs.Meta.{whole_length};

use slot_cell::read_image;
use swap_meta::read_meta;

/// What the slot at a place adds to the body of the entry of a URL, by the image of the slot in a file of so
/// many slots: of the first one all behind its metadata, and of each other one its payload. None: the slot is
/// not one of such an entry.
pub(crate) fn body_in<'a>(image: &'a [u8], slots: u32, place: u32, url: &[u8]) -> Option<&'a [u8]>
    ensures some { IsSome result ↔ IsOfEntry image.now slots place url.now }
    ensures value { IfSome result (λ body. body.now ≡ body_of image.now place) }
    ensures short { IfSome result (λ body. length body.now + HEADER_SIZE ≤ length image.now) }
{
    let Some((_, payload)) = read_image(image, slots) else {
        return None;
    };
    if place > 0 {
        return Some(payload);
    }
    behind_meta(payload, url)
}

// What stands behind the metadata at the front of a payload, where they have this URL.
fn behind_meta<'a>(payload: &'a [u8], url: &[u8]) -> Option<&'a [u8]>
    ensures some { IsSome result ↔ ((url.now ≢ []) × HasUrl payload.now url.now) }
    ensures value { IfSome result (λ body. body.now ≡ drop (whole_length payload.now) payload.now) }
{
    let Ok(meta) = read_meta(payload) else {
        return None;
    };
    if url.is_empty() || meta.url != url {
        return None;
    }
    Some(&payload[meta.length..])
}
