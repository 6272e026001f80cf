// A file that was made by hand, and patches of it.
use crate::SLOT;
use std::alloc::Global;

/// Four slots, by the bytes that stand from a place of a slot on; the others are 0. `http://a/b` of version 7 is in
/// slots 2 and 0, with a body of 430 and 5 bytes, and `http://a/c` of version 3 in slot 1, with 5 bytes. Slot 3 was
/// never written. Each part is a header, the 16 bytes of the key in front, and behind it in the first slot the
/// metadata; a body ends with "hello". The keys are the MD5 of a byte 1 and the URL, by the program md5sum.
const BASE: &str = "\
patch 2 0 1a 68 c1 0d 6c 8b 32 66 57 c7 75 f5 3c 86 6d d1
patch 2 16 00 00 00 00 00 00 00 00 d8 01 00 00 07 00 00 00 02 00 00 00 00 00 00 00
patch 2 40 03 2a 00 00 00 03 10 00 00 00 1a 68 c1 0d 6c 8b 32 66 57 c7 75 f5 3c 86 6d d1 04 0b 00 00 00 68
patch 2 72 74 74 70 3a 2f 2f 61 2f 62 00
patch 0 0 1a 68 c1 0d 6c 8b 32 66 57 c7 75 f5 3c 86 6d d1
patch 0 16 dd 01 00 00 00 00 00 00 05 00 00 00 07 00 00 00 02 00 00 00 ff ff ff ff
patch 0 40 68 65 6c 6c 6f
patch 1 0 48 77 c9 34 8b 6d 72 99 e2 13 89 6f 83 9c 80 b8
patch 1 16 2f 00 00 00 00 00 00 00 2f 00 00 00 03 00 00 00 01 00 00 00 ff ff ff ff
patch 1 40 03 2a 00 00 00 03 10 00 00 00 48 77 c9 34 8b 6d 72 99 e2 13 89 6f 83 9c 80 b8 04 0b 00 00 00 68
patch 1 72 74 74 70 3a 2f 2f 61 2f 63 00
patch 1 82 68 65 6c 6c 6f
";

/// Puts the bytes of `SLOT PLACE BYTE BYTE ..` into a file.
fn patch(file: &mut [u8], text: &str) -> Option<()> {
    let mut words = text.split(' ');
    let slot: usize = words.next()?.parse().ok()?;
    let place: usize = words.next()?.parse().ok()?;
    let mut at = slot.saturating_mul(SLOT).saturating_add(place);
    for word in words {
        let byte = u8::from_str_radix(word, 16).ok()?;
        match file.get_mut(at) {
            Some(old) => *old = byte,
            None => return None,
        }
        at = at.saturating_add(1);
    }
    Some(())
}

/// Puts the patches of a text into a file.
fn patch_all(file: &mut [u8], text: &str) -> Option<()> {
    for line in text.lines() {
        if let Some(bytes) = line.strip_prefix("patch ") {
            patch(file, bytes)?;
        }
    }
    Some(())
}

/// How many slots a text says that its file has.
fn slots_of(text: &str) -> Option<usize> {
    for line in text.lines() {
        if let Some(slots) = line.strip_prefix("slots ") {
            return slots.parse().ok();
        }
    }
    Some(4)
}

/// The bytes of the base with the patches of a text.
pub fn patched_base(alloc: Global, patches: &str) -> Option<Vec<u8>> {
    let mut file = Vec::new(alloc);
    file.resize(slots_of(patches)?.saturating_mul(SLOT), 0)
        .ok()?;
    patch_all(&mut file, BASE)?;
    patch_all(&mut file, patches)?;
    Some(file)
}
