// What a request asks for, by the three numbers that are drawn for it.
ghost use Rattle.std.specs.Prelude.{◌≡◌, ◌<◌, length, IfOk};
ghost use Rattle.workload.specs.Requests.{body_of, request_of};

use crate::urls::url_of;
use rock_io::Memory;
use script_text::{Body, Request};
use std::alloc::Global;

/// How many lengths a body may have, from 0.
const LENGTHS: u32 = 1_301;

/// How many shifts it may have, from 0.
const SHIFTS: u32 = 26;

/// How many kinds are told apart.
const KINDS: u32 = 8;

/// The body that a number stands for.
fn body_of(number: u32) -> Body
    ensures { result ≡ body_of number }
{
    Body::Made {
        length: number % LENGTHS,
        shift: (number % SHIFTS) as u8,
    }
}

/// The request that three numbers stand for, on one of these URLs.
pub(crate) fn request_of(
    alloc: Global,
    urls: &[u32],
    first: u32,
    second: u32,
    third: u32,
) -> Result<Request, Memory>
    requires { 0 < length urls.now }
    ensures { IfOk result (λ request. request ≡ request_of urls.now first second third) }
{
    let url = url_of(alloc, urls[first as usize % urls.len()])?;
    Ok(match second % KINDS {
        0..=3 => Request::Get { url },
        4 | 5 => Request::Put {
            url,
            body: body_of(third),
        },
        6 => Request::Save {
            url,
            body: body_of(third),
        },
        _ => Request::Purge { url },
    })
}
