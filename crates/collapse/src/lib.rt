//! A response that is missing in the store is fetched once: the worker that fetches it stores it, and others that
//! want it meanwhile follow the entry while it grows.
#![tactic(auto)]

mod answer;
mod asking;
mod fetcher;
mod following;
mod forwarding;
mod mem_fetcher;
mod reading;
mod sending;
mod writing;

pub use answer::{Forwarded, Why};
pub use fetcher::Fetcher;
pub use forwarding::{MOST_LOOKS, forward, forward_within};
pub use mem_fetcher::MemFetcher;
