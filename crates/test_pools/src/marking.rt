ghost use Rattle.std.specs.Prelude.{◌<◌};

use marks::{Home, Marks};
use rock_io::Memory;
use std::alloc::Global;

/// A note that tells each number below its count.
#[derive(Drop)]
struct Tally {
    count: u32,
}

/// The one home of all tallies.
struct Town;

impl Home<Tally> for Town {
    ghost use Rattle.std.specs.Prelude.{ℕ, ◌<◌};

    type Key = ();

    ghost Fact = { ℕ };

    ghost tells = { λ note n. n < note.count };

    ghost Place = { Unit {0} };

    ghost place = { λ _. tt };

    ghost home = { λ _. tt };
}

/// What looks at a mark find: before it was set, after it, after the note was taken out, and after another was put.
#[derive(Drop, PartialEq)]
struct Found {
    before: Option<u32>,
    after: Option<u32>,
    taken: Option<u32>,
    put: Option<u32>,
}

fn looks_at(alloc: Global, mark: u8) -> Result<Found, Memory>
    requires { mark < 64 }
{
    let mut setters = [0; 64];
    setters[mark as usize] = 1;
    let (marks, mut seats) = Marks::<Tally, Town>::new(alloc, &setters, 2, &())?;
    let mut first = seats.remove(0);
    let mut second = seats.remove(0);
    let before = marks.look(&mut second, mark).map(|note| note.count);
    marks.set(&mut first, mark, Tally { count: 5 });
    let Some(note) = marks.look(&mut second, mark) else {
        return Ok(Found {
            before,
            after: None,
            taken: None,
            put: None,
        });
    };
    let taken = marks.look(&mut first, mark).map(|note| note.count);
    let more = note.count.max(9);
    marks.put(&mut second, mark, Tally { count: more });
    let put = marks.look(&mut first, mark).map(|note| note.count);
    marks.join(&mut first, second);
    Ok(Found {
        before,
        after: Some(note.count),
        taken,
        put,
    })
}

#[test]
fn a_note_is_found_once_it_was_set(rt: HostRuntime) {
    for mark in [0, 1, 31, 62, 63] {
        let wanted = Found {
            before: None,
            after: Some(5),
            taken: None,
            put: Some(9),
        };
        assert!(rt; looks_at(rt.alloc(), mark) == Ok(wanted), "{mark}");
    }
}

/// Takes only what threads may share, and what may move to another.
fn may_cross<M: Sync, S: Send>(_marks: &M, seats: &Vec<S>) -> usize {
    seats.len()
}

#[test]
fn marks_are_shared_and_seats_move(rt: HostRuntime) {
    for workers in [1, 2, 32] {
        let Ok((marks, seats)) = Marks::<Tally, Town>::new(rt.alloc(), &[0; 64], workers, &())
        else {
            assert!(rt; false, "memory was wanted");
            return;
        };
        assert!(rt; may_cross(&marks, &seats) == workers as usize, "{workers}");
    }
}
