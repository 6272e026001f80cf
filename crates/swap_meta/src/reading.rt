ghost use Rattle.std.specs.Prelude.{◌≡◌, ℕ, ◌+◌, ◌≤◌, ◌↔◌, List, length, take, IfOk, IfErr, IsOkAnd, IsErrOf};
ghost use Rattle.swap_meta.specs.declared.fault.MetaFault.{MetaFault};
ghost use Rattle.swap_meta.specs.Meta.{Spells, Frames, FrameFails, Refuses};

use crate::fault::MetaFault;
use crate::items::read_items;
use crate::meta_head::{HEAD, split_head};

/// The first byte of metadata.
pub const MARK: u8 = 3;

/// What metadata says.
#[derive(Clone, Copy, Debug, PartialEq, Eq)]
pub struct Meta<'a> {
    /// The key of the object.
    pub key: [u8; 16],
    /// The URL, without the zero byte behind it.
    pub url: &'a [u8],
    /// The whole length of the metadata, in bytes.
    pub length: usize,
}

/// The bytes of the items, between the whole length and where it says that they end.
fn inside_of(bytes: &[u8]) -> Result<&[u8], MetaFault>
    ensures framed { IfOk result (λ inside. Frames bytes.now inside.now (length inside.now + HEAD)) }
    ensures refused { IfErr result (λ fault. FrameFails bytes.now fault) }
{
    let [MARK, ..] = bytes else {
        return Err(MetaFault::BadMark);
    };
    let Some(head) = split_head(bytes) else {
        return Err(MetaFault::BadLength);
    };
    let whole = head.length as usize;
    if whole < HEAD || bytes.len() < whole {
        return Err(MetaFault::BadLength);
    }
    Ok(&head.rest[..whole - HEAD])
}

/// What metadata at the front of `bytes` says, or what is wrong first.
fn read(bytes: &[u8]) -> Result<Meta<'_>, MetaFault>
    ensures found { IfOk result (λ meta.
        Spells (take meta.length bytes.now) meta.key meta.url.now meta.length) }
    ensures refused { IfErr result (λ fault. Refuses bytes.now fault) }
{
    let inside = inside_of(bytes)?;
    let seen = read_items(inside)?;
    let Some(key) = seen.key else {
        return Err(MetaFault::NoKey);
    };
    let Some(url) = seen.url else {
        return Err(MetaFault::NoUrl);
    };
    Ok(Meta {
        key,
        url,
        length: HEAD + inside.len(),
    })
}

/// Reads the metadata at the front of `bytes`. Bytes may follow it.
///
/// # Errors
///
/// The first thing that is wrong, from the front: [`MetaFault::BadMark`] for a first byte that is
/// not 3, [`MetaFault::BadLength`] for a whole length that is missing, below 5 or more than there
/// are bytes. Then for each item in turn [`MetaFault::BadLength`] where it does not end within the
/// whole length, [`MetaFault::Repeated`] for a second of type 3 or of type 4, and
/// [`MetaFault::BadLength`] for a key that is not 16 bytes or a URL without its zero byte. At the
/// end [`MetaFault::NoKey`], or else [`MetaFault::NoUrl`].
pub fn read_meta(bytes: &[u8]) -> Result<Meta<'_>, MetaFault>
    // What is read is spelled so.
    ensures found { IfOk result (λ meta.
        Spells (take meta.length bytes.now) meta.key meta.url.now meta.length) }

    // What is spelled so is read.
    ensures only { (key url : List ℕ) (n : ℕ) → Spells (take n bytes.now) key url n →
        IsOkAnd result (λ meta. (meta.key ≡ key) × (meta.url.now ≡ url) × (meta.length ≡ n)) }

    // Which fault it is.
    ensures fault { (f : MetaFault) → (IsErrOf result f ↔ Refuses bytes.now f) }

    ensures within { IfOk result (λ meta. meta.length ≤ length bytes.now) }
    ensures room { IfOk result (λ meta. length meta.url.now + 32 ≤ meta.length) }
{
    read(bytes)
}
