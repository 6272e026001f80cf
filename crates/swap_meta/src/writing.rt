ghost use Rattle.std.specs.Prelude.{◌≡◌, ℕ, ◌+◌, ◌^◌, ◌<◌, ◌≤◌, List, [], ◌∷◌, ◌++◌, length, take, drop};
ghost use Rattle.std.specs.Int.{w32, to_le_bytes};
ghost use Rattle.swap_meta.specs.Meta.{Spells, meta_bytes};

use crate::items::{KEY, URL};
use crate::meta_head::HEAD;
use crate::reading::MARK;

/// How many bytes metadata takes besides its URL: the mark and the whole length, the item of the
/// key, and the type, the length and the zero byte of the URL.
pub const META_SIZE: usize = 32;

/// Writes metadata with this key and this URL at the front of `out`: the key first, then the URL, and
/// no other item. Answers how many bytes it takes, 32 more than the URL. What stands behind stays.
pub fn write_meta(key: &[u8; 16], url: &[u8], out: &mut [u8]) -> usize
    requires room { 32 + length url.now ≤ length out.old }
    requires fits { 32 + length url.now < 2 ^ 32 }
    ensures length { result ≡ 32 + length url.now }
    ensures written { take result out.new ≡ meta_bytes key.now url.now }
    ensures spelled { Spells (take result out.new) key.now url.now result }
    ensures behind { drop result out.new ≡ drop result out.old }
{
    let whole = META_SIZE + url.len();
    let at = put_head(out, 0, MARK, whole as u32);
    let at = put_head(out, at, KEY, 16);
    let at = put(out, at, key);
    let at = put_head(out, at, URL, url.len() as u32 + 1);
    let at = put(out, at, url);
    put(out, at, &[0])
}

/// Writes a mark and a length at byte `at`, and answers where they end.
fn put_head(out: &mut [u8], at: usize, mark: u8, count: u32) -> usize
    requires { at + HEAD ≤ length out.old }
    ensures end { result ≡ at + HEAD }
    ensures front { take result out.new ≡ take at out.old ++ mark ∷ to_le_bytes w32 count }
    ensures behind { drop result out.new ≡ drop result out.old }
    ensures size { length out.new ≡ length out.old }
{
    let [a, b, c, d] = count.to_le_bytes();
    put(out, at, &[mark, a, b, c, d])
}

/// Writes `part` at byte `at`, and answers where it ends.
fn put(out: &mut [u8], at: usize, part: &[u8]) -> usize
    requires { at + length part.now ≤ length out.old }
    ensures end { result ≡ at + length part.now }
    ensures front { take result out.new ≡ take at out.old ++ part.now }
    ensures behind { drop result out.new ≡ drop result out.old }
    ensures size { length out.new ≡ length out.old }
{
    let end = at + part.len();
    out[at..end].copy_from_slice(part);
    end
}
