// What the files list that a crash may leave.
use crate::numbers::wrong;
use crate::texts::push_text;
use std::alloc::Global;
use std::test::Fail;

/// A line that some listings are to have.
#[derive(Drop)]
struct Sight {
    line: Vec<u8>,
    /// All of them, and not only some.
    is_in_all: bool,
    /// How many had it.
    seen: u32,
}

/// The lines of listings, and those that they are to have.
#[derive(Drop)]
pub struct Listings {
    sights: Vec<Sight>,
    /// How many there were.
    seen: u32,
}

impl Listings {
    /// Listings that are to have what these lines say, of a store with so many anchors.
    pub(crate) fn read(alloc: Global, lines: &str, anchors: u32) -> Result<Listings, Fail> {
        let mut sights = Vec::new(alloc);
        for line in lines.lines() {
            sights.push(Sight::read(alloc, line, anchors)?)?;
        }
        Ok(Listings { sights, seen: 0 })
    }

    /// Counts a listing. It has no line but those that are told.
    pub fn see(&mut self, listing: &str) -> Result<(), Fail> {
        self.seen = self.seen.saturating_add(1);
        for line in listing.lines() {
            self.see_line(line)?;
        }
        Ok(())
    }

    /// Counts a line of a listing.
    fn see_line(&mut self, line: &str) -> Result<(), Fail> {
        let found = self
            .sights
            .iter_mut()
            .find(|sight| sight.line.as_slice() == line.as_bytes());
        match found {
            Some(sight) => {
                sight.seen = sight.seen.saturating_add(1);
                Ok(())
            }
            None => Err(Fail::new(format_args!("a crash may leave {line}"))),
        }
    }

    /// Whether all listings together had what they are to have: each `all` line stood in each, and each `some` line in at least
    /// one and not in all.
    pub fn judge(&self) -> Result<(), Fail> {
        for sight in &self.sights {
            if !sight.is_right(self.seen) {
                let line = std::str::from_utf8(&sight.line).unwrap_or("");
                return Err(Fail::new(format_args!(
                    "{} of {} images list {line}",
                    sight.seen, self.seen
                )));
            }
        }
        Ok(())
    }
}

impl Sight {
    /// What a line says: `all LINE` or `some LINE`.
    fn read(alloc: Global, text: &str, anchors: u32) -> Result<Sight, Fail> {
        let (kind, rest) = text.split_once(' ').unwrap_or((text, ""));
        let mut line = Vec::new(alloc);
        push_text(alloc, &mut line, rest, anchors)?;
        match kind {
            "all" => Ok(Sight {
                line,
                is_in_all: true,
                seen: 0,
            }),
            "some" => Ok(Sight {
                line,
                is_in_all: false,
                seen: 0,
            }),
            _ => Err(wrong("a line of images that is none")),
        }
    }

    /// Whether as many of so many listings had it as are to have it.
    fn is_right(&self, listings: u32) -> bool {
        if self.is_in_all {
            self.seen == listings && listings > 0
        } else {
            0 < self.seen && self.seen < listings
        }
    }
}
