// Lists as contracts see them.
ghost use Rattle.std.specs.Prelude.{◌≡◌, ◌++◌, ◌∷◌, [], List, OnOk, OnErr};
ghost use Rattle.script_text.specs.declared.answer.Answer.{Answer};

use crate::entry::{Life, Place, Size};
use script_text::Answer;
use std::alloc::{AllocError, Global};
use std::marker::Model;

/// What each anchor has, in order.
#[derive(Debug, Drop)]
pub struct Places {
    places: Vec<Place>,
}

impl Model for Places {
    ghost use Rattle.std.specs.Prelude.{List};
    ghost use Rattle.plain_model.specs.declared.entry.Place.{Place};

    ghost Value = { List Place };

    ghost view = { λ p. p.places.items };
}

impl Places {
    ghost use Rattle.std.specs.Prelude.{◌≡◌, slice_set, slice_index_or};
    ghost use Rattle.plain_model.specs.Place.{nothing, vacated, doomed, resized, ended};

    /// Takes a vector as it is, and no memory.
    pub fn from_vec(places: Vec<Place>) -> Self
        ensures { result ≡ places.items }
    {
        Places { places }
    }

    pub fn as_slice(&self) -> &[Place]
        ensures { result.now ≡ self.now }
    {
        &self.places
    }

    /// Puts this in place of what the anchor has, if there is such an anchor.
    pub fn put(&mut self, anchor: u32, place: Place)
        ensures { self.new ≡ slice_set self.old anchor place }
    {
        if (anchor as usize) < self.places.len() {
            self.places[anchor as usize] = place;
        }
    }

    /// Takes the entry away.
    pub fn vacate(&mut self, anchor: u32)
        ensures { self.new ≡ slice_set self.old anchor (vacated (slice_index_or self.old anchor nothing)) }
    {
        if (anchor as usize) < self.places.len() {
            self.places[anchor as usize].entry = None;
        }
    }

    /// Dooms the entry.
    pub fn doom(&mut self, anchor: u32)
        ensures { self.new ≡ slice_set self.old anchor (doomed (slice_index_or self.old anchor nothing)) }
    {
        if (anchor as usize) < self.places.len() {
            self.places[anchor as usize].doom = true;
        }
    }

    /// Makes so many bytes of the entry's content be there.
    pub fn resize(&mut self, anchor: u32, content: Size)
        ensures { self.new ≡ slice_set self.old anchor (resized content (slice_index_or self.old anchor nothing)) }
    {
        if (anchor as usize) < self.places.len() {
            self.places[anchor as usize].resize(content);
        }
    }

    /// Ends the entry's growing.
    pub fn end(&mut self, anchor: u32, life: Life)
        ensures { self.new ≡ slice_set self.old anchor (ended life (slice_index_or self.old anchor nothing)) }
    {
        if (anchor as usize) < self.places.len() {
            self.places[anchor as usize].end(life);
        }
    }
}

/// Answers, in order.
#[derive(Debug, Drop)]
pub struct Answers {
    answers: Vec<Answer>,
}

impl Model for Answers {
    ghost Value = { List Answer };

    ghost view = { λ a. a.answers.items };
}

impl Answers {
    pub fn new(alloc: Global) -> Self
        ensures { result ≡ [] }
    {
        Answers {
            answers: Vec::new(alloc),
        }
    }

    /// Adds an answer behind the others.
    pub fn push(&mut self, answer: Answer) -> Result<(), AllocError>
        ensures ok { OnOk result (self.new ≡ self.old ++ answer ∷ []) }
        ensures err { OnErr result (self.new ≡ self.old) }
    {
        self.answers.push(answer)?;
        Ok(())
    }

    pub fn as_slice(&self) -> &[Answer]
        ensures { result.now ≡ self.now }
    {
        &self.answers
    }
}
