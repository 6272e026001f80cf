ghost use Rattle.std.specs.Prelude.{◌≡◌, length, IfOk};
ghost use Rattle.answer_text.specs.Lines.{line_of, line_with, spaced};
ghost use Rattle.answer_text.specs.Ranges.{IsAnswer};
ghost use Rattle.answer_text.specs.Fields.{field_words, Counts};
ghost use Rattle.rock_io.specs.LineBuffer.{HasRoom, Adds};

use crate::field::{Field, number_size};
use crate::fields::fields_of;
use rock_io::{LineBuffer, Memory, Octets};
use script_text::Answer;
use std::alloc::Global;

/// The line of a worker's answer to the line of this number of a script, with its line feed. It takes
/// memory once, for exactly the bytes of the line.
pub fn answer_line(
    alloc: Global,
    worker: u32,
    number: u32,
    answer: &Answer,
) -> Result<Octets, Memory>
    ensures line { IfOk result (λ line. line ≡ line_of worker number answer.now) }
    ensures in_range { IsAnswer answer.now }
{
    let (worker, number) = (u64::from(worker), u64::from(number));
    let fields = fields_of(answer);
    let size = line_size(worker, number, &fields).ok_or(Memory)?;
    let mut line = LineBuffer::new(alloc, size)?;
    line.put_number(worker);
    line.put(b" ");
    line.put_number(number);
    put_fields(&mut line, &fields);
    line.put(b"\n");
    Ok(line.into_octets())
}

/// How many bytes the line has. None where that is more than a `usize` can count.
fn line_size(worker: u64, number: u64, fields: &[Option<Field>]) -> Option<usize>
    ensures { Counts result (length (line_with worker number (field_words fields.now))) }
{
    let numbers = number_size(worker) + number_size(number);
    fields_size(fields)?.checked_add(numbers + 2)
}

/// How many bytes these words have, each behind a space.
fn fields_size(fields: &[Option<Field>]) -> Option<usize>
    ensures { Counts result (length (spaced (field_words fields.now))) }
{
    let mut size: usize = 0;
    'fields: for field in fields {
        if let Some(field) = field {
            size = size.checked_add(1)?.checked_add(field.size()?)?;
        }
    }
    Some(size)
}

/// Adds these words, each behind a space, to a line that has room for them.
fn put_fields(line: &mut LineBuffer, fields: &[Option<Field>])
    requires { HasRoom line.old (spaced (field_words fields.now)) }
    ensures { Adds line.old line.new (spaced (field_words fields.now)) }
{
    'fields: for field in fields {
        if let Some(field) = field {
            line.put(b" ");
            field.put(line);
        }
    }
}
