ghost use Rattle.std.specs.Prelude.{◌≡◌, ◌≢◌, ℕ, ◌^◌, ◌<◌, List, [], ◌∷◌, ◌++◌, length, IfSome, IfNone, IfOk, IfErr};
ghost use Rattle.swap_meta.specs.Meta.{Item, item_bytes, IsKey, IsUrl, ItemsFail};
ghost use Rattle.swap_meta.specs.Seen.{item_of, AddFails, IsSeen, HoldsItems};

use crate::fault::MetaFault;
use crate::meta_head::split_head;

/// The type of the item that holds the key.
pub const KEY: u8 = 3;

/// The type of the item that holds the URL.
pub const URL: u8 = 4;

/// The item at the front of some bytes, and the bytes behind it.
#[derive(Clone, Copy)]
struct Front<'a> {
    kind: u8,
    value: &'a [u8],
    rest: &'a [u8],
}

/// What the items so far say.
#[derive(Clone, Copy)]
pub struct Seen<'a> {
    pub key: Option<[u8; 16]>,
    pub url: Option<&'a [u8]>,
}

/// Takes an item off the front, or `None` where no whole one stands there.
fn split_item(bytes: &[u8]) -> Option<Front<'_>>
    requires { length bytes.now < 2 ^ 32 }
    ensures found { IfSome result (λ front.
        bytes.now ≡ item_bytes (item_of front.kind front.value.now) ++ front.rest.now) }
    ensures none { IfNone result ((i : Item) (more : List ℕ) → bytes.now ≢ item_bytes i ++ more) }
{
    let head = split_head(bytes)?;
    let length = head.length as usize;
    if head.rest.len() < length {
        return None;
    }
    let (value, rest) = head.rest.split_at(length);
    Some(Front {
        kind: head.mark,
        value,
        rest,
    })
}

/// The key in a value of its type.
fn key_of(value: &[u8]) -> Option<[u8; 16]>
    ensures found { IfSome result (λ key. (key ≡ value.now) × IsKey value.now) }
    ensures none { IfNone result (¬ IsKey value.now) }
{
    value.as_array().copied()
}

/// The URL in a value of its type.
fn url_of(value: &[u8]) -> Option<&[u8]>
    ensures found { IfSome result (λ url. value.now ≡ url.now ++ 0 ∷ []) }
    ensures none { IfNone result (¬ IsUrl value.now) }
{
    match value {
        [url @ .., 0] => Some(url),
        _ => None,
    }
}

/// What the items say with one more item behind them.
fn with_item<'a>(seen: Seen<'a>, kind: u8, value: &'a [u8]) -> Result<Seen<'a>, MetaFault>
    ensures ok { IfOk result (λ after. (items : List Item) → IsSeen items seen.entry →
        IsSeen (items ++ item_of kind value.now ∷ []) after) }
    ensures err { IfErr result (λ fault. (items : List Item) → IsSeen items seen.entry →
        AddFails items (item_of kind value.now) fault) }
{
    match kind {
        KEY => {
            if seen.key.is_some() {
                return Err(MetaFault::Repeated);
            }
            let Some(key) = key_of(value) else {
                return Err(MetaFault::BadLength);
            };
            Ok(Seen {
                key: Some(key),
                url: seen.url,
            })
        }
        URL => {
            if seen.url.is_some() {
                return Err(MetaFault::Repeated);
            }
            let Some(url) = url_of(value) else {
                return Err(MetaFault::BadLength);
            };
            Ok(Seen {
                key: seen.key,
                url: Some(url),
            })
        }
        _ => Ok(seen),
    }
}

/// What all of the items in these bytes say.
pub fn read_items(inside: &[u8]) -> Result<Seen<'_>, MetaFault>
    requires { length inside.now < 2 ^ 32 }
    ensures found { IfOk result (λ seen. HoldsItems inside.now seen) }
    ensures refused { IfErr result (λ fault. ItemsFail inside.now fault) }
{
    let mut seen = Seen {
        key: None,
        url: None,
    };
    let mut rest = inside;
    while !rest.is_empty() {
        let Some(front) = split_item(rest) else {
            return Err(MetaFault::BadLength);
        };
        seen = with_item(seen, front.kind, front.value)?;
        rest = front.rest;
    }
    Ok(seen)
}
