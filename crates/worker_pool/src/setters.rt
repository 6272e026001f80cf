// Which worker sets a mark.
ghost use Rattle.std.specs.Prelude.{◌≡◌, ℕ, slice_index};
ghost use Rattle.script_text.specs.declared.line.Line.{Line};
ghost use Rattle.script_text.specs.declared.request.Request.TheVariants.{Mark};
ghost use Rattle.worker_pool.specs.Courses.{At};
ghost use Rattle.worker_pool.specs.Knowing.{HasMarks};

use script_text::{Line, Request};

/// For each mark the worker of the line that sets it, or 0 where none does.
pub(crate) fn setters_of(lines: &[Line]) -> [u32; 64]
    requires { HasMarks lines.now }
    ensures { (k m : ℕ) (line : Line) → At lines.now k line → line.request ≡ Mark m → slice_index result m ≡ line.worker }
{
    let mut setters = [0; 64];
    for line in lines {
        if let Request::Mark { mark } = &line.request {
            setters[*mark as usize] = line.worker;
        }
    }
    setters
}
