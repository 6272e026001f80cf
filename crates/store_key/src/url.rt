// The check of a URL.
ghost use Rattle.std.specs.Prelude.{◌≡◌, ℕ, ◌<◌, ◌≤◌, ◌↔◌, [], length, IsOk, IsErrOf};
ghost use Rattle.store_key.specs.Url.{IsUrl, IsFirstBadByte};

/// The greatest length of a URL, in bytes.
const LONGEST_URL: usize = 2048;

/// What is wrong with a URL: the first of these that applies, an empty or a long one before a byte.
#[derive(Clone, Copy, Debug, PartialEq, Eq)]
pub enum UrlFault {
    EmptyUrl,
    /// A byte outside 0x21 to 0x7E, the first one at this place.
    BadByte { at: usize },
    /// More than 2,048 bytes.
    LongUrl,
}

/// Whether these bytes are a URL.
pub fn check_url(bytes: &[u8]) -> Result<(), UrlFault>
    ensures ok { IsOk result ↔ IsUrl bytes.now }
    ensures empty { IsErrOf result UrlFault.EmptyUrl ↔ (bytes.now ≡ []) }
    ensures long { IsErrOf result UrlFault.LongUrl ↔ (2048 < length bytes.now) }
    ensures bad_byte { (at : ℕ) → IsErrOf result (UrlFault.BadByte at)
        ↔ ((length bytes.now ≤ 2048) × IsFirstBadByte bytes.now at) }
{
    if bytes.is_empty() {
        return Err(UrlFault::EmptyUrl);
    }
    if bytes.len() > LONGEST_URL {
        return Err(UrlFault::LongUrl);
    }
    match bytes.iter().position(|byte| !byte.is_ascii_graphic()) {
        Some(at) => Err(UrlFault::BadByte { at }),
        None => Ok(()),
    }
}
