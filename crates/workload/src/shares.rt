// The workers that have a URL, each with its URLs.
ghost use Rattle.std.specs.Prelude.{◌≡◌, ◌≤◌, length, All, IsTrue, IfOk};
ghost use Rattle.workload.specs.Shares.{shares_of, has_url};

use crate::urls::{homes_of, urls_of};
use rock_io::{Memory, Numbers};
use std::alloc::Global;

/// A worker, and the numbers of its URLs in order.
#[derive(Debug, Drop)]
pub struct Share {
    pub worker: u32,
    pub urls: Numbers,
}

/// The workers that have a URL, in order.
pub(crate) fn shares_of(alloc: Global, workers: u32) -> Result<Vec<Share>, Memory>
    requires one { 1 ≤ workers }
    requires few { workers ≤ 32 }
    ensures { IfOk result (λ shares. shares.items ≡ shares_of workers) }
{
    let homes = homes_of(alloc, workers)?;
    let mut shares = Vec::new(alloc);
    'workers: for before in 0..workers {
        let worker = before + 1;
        let urls = urls_of(alloc, workers, &homes, worker)?;
        if !urls.as_slice().is_empty() {
            shares.push(Share { worker, urls })?;
        }
    }
    Ok(shares)
}
