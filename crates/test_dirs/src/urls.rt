// What these caches are offered. It stands by itself, since what the tests say of it is read without them too.
use std::snapshot::Snapshot;
use store_rule::Origin;

/// Two URLs with one body: the first line has the first URL, and each other one the second.
#[derive(Drop)]
pub struct TwoUrls {
    first: Snapshot<Vec<u8>>,
    second: Snapshot<Vec<u8>>,
    body: Snapshot<Vec<u8>>,
}

impl TwoUrls {
    ghost use Rattle.test_dirs.specs.Offered.{offers_in, offers_of};
    ghost use Rattle.std.specs.Prelude.{◌≡◌};

    pub fn new(first: &Vec<u8>, second: &Vec<u8>, body: &Vec<u8>) -> Self
        ensures { offers_of result ≡ offers_in first.now.items second.now.items body.now.items }
    {
        TwoUrls {
            first: Snapshot::of(first),
            second: Snapshot::of(second),
            body: Snapshot::of(body),
        }
    }
}

impl Origin for TwoUrls {
    ghost use Rattle.test_dirs.specs.Offered.{offers_of};

    ghost offers = { offers_of };
}
