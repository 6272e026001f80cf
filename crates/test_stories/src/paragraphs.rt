// The text of a story.
use std::alloc::{AllocError, Global};

/// What stands of a paragraph behind its comments.
pub(crate) fn uncommented(paragraph: &str) -> &str {
    let mut comments = 0usize;
    for line in paragraph.lines() {
        if !line.starts_with('#') {
            break;
        }
        comments = comments.saturating_add(1);
    }
    paragraph
        .splitn(comments.saturating_add(1), '\n')
        .nth(comments)
        .unwrap_or("")
}

/// A story in which a number stands where the text has `@`.
pub fn with_number(alloc: Global, story: &str, number: u32) -> Result<String, AllocError> {
    let digits = format!(in alloc; "{number}")?;
    let mut text = String::new(alloc);
    let mut is_first = true;
    for part in story.split('@') {
        if !is_first {
            text.push_str(digits.as_str())?;
        }
        text.push_str(part)?;
        is_first = false;
    }
    Ok(text)
}
