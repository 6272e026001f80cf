// The URLs of a benchmark, and the workers that they belong to.
ghost use Rattle.std.specs.Prelude.{◌≡◌, ◌*◌, ◌≤◌, map, IfOk};
ghost use Rattle.std.specs.List.{range_with_len};
ghost use Rattle.workload.specs.Urls.{url_of, home_of, urls_of};

use itoa::Buffer;
use rock_io::{Memory, Numbers, Octets};
use std::alloc::Global;
use store_key::{anchor_of, key_of};

/// How many anchors there are for each worker.
const ANCHORS_EACH: u32 = 16;

/// How many URLs there are for each worker.
const URLS_EACH: u32 = 64;

/// The URL of a number.
pub(crate) fn url_of(alloc: Global, number: u32) -> Result<Octets, Memory>
    ensures { IfOk result (λ url. url ≡ url_of number) }
{
    let mut url = b"http://bench/".to_vec(alloc)?;
    let mut digits = Buffer::new();
    url.extend_from_slice(digits.format(number).as_bytes())?;
    Ok(Octets::from_vec(url))
}

/// The worker that it belongs to.
fn home_of(alloc: Global, workers: u32, number: u32) -> Result<u32, Memory>
    requires one { 1 ≤ workers }
    requires few { workers ≤ 32 }
    ensures { IfOk result (λ home. home ≡ home_of workers number) }
{
    let url = url_of(alloc, number)?;
    let anchor = anchor_of(&key_of(url.as_slice()), ANCHORS_EACH * workers);
    Ok(1 + anchor / ANCHORS_EACH)
}

/// The worker that each URL belongs to, in order of their numbers.
pub(crate) fn homes_of(alloc: Global, workers: u32) -> Result<Vec<u32>, Memory>
    requires one { 1 ≤ workers }
    requires few { workers ≤ 32 }
    ensures { IfOk result (λ homes. homes.items ≡ map (home_of workers) (range_with_len 0 (64 * workers))) }
{
    let mut homes = Vec::new(alloc);
    'urls: for number in 0..URLS_EACH * workers {
        homes.push(home_of(alloc, workers, number)?)?;
    }
    Ok(homes)
}

/// The numbers of a worker's URLs, from the worker of each URL.
pub(crate) fn urls_of(
    alloc: Global,
    workers: u32,
    homes: &[u32],
    worker: u32,
) -> Result<Numbers, Memory>
    requires few { workers ≤ 32 }
    requires homes { homes.now ≡ map (home_of workers) (range_with_len 0 (64 * workers)) }
    ensures { IfOk result (λ urls. urls ≡ urls_of workers worker) }
{
    let mut urls = Vec::new(alloc);
    'urls: for number in 0..URLS_EACH * workers {
        if homes[number as usize] == worker {
            urls.push(number)?;
        }
    }
    Ok(Numbers::from_vec(urls))
}
