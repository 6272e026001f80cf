// The key of a URL.
ghost use Rattle.std.specs.Prelude.{◌≡◌};
ghost use Rattle.store_key.specs.Key.{key_of};

use md5::{Digest, Md5};

/// The MD5 of a byte 1, which stands for the one method GET, and the URL's bytes.
pub fn key_of(url: &[u8]) -> [u8; 16]
    ensures { result ≡ key_of url.now }
{
    let mut hasher = Md5::new();
    hasher.update(&[1]);
    hasher.update(url);
    hasher.finalize()
}
