// Rows of text, one a line. Their fields stand apart by `;`, and numbers by spaces.
use std::test::Fail;

/// The image of a slot.
pub(crate) type Image = [u8; 512];

/// The numbers of a text, which has so many.
pub(crate) fn numbers<const N: usize>(text: &str) -> Result<[u64; N], Fail> {
    // What the slots of no entry and of a chain's end name.
    Ok(test_rows::numbers("-1;18446744073709551615", text).ok_or("numbers of a row")?)
}

/// The two fields of a text, of which the first ends at the first `;`.
pub(crate) fn fields(text: &str) -> Result<(&str, &str), Fail> {
    Ok(test_rows::fields(text).ok_or("two fields")?)
}

/// Puts bytes into an image, as far as they fit.
pub(crate) fn put(image: &mut Image, at: usize, bytes: &[u8]) {
    for (i, byte) in bytes.iter().enumerate() {
        if let Some(place) = image.get_mut(at.saturating_add(i)) {
            *place = *byte;
        }
    }
}
