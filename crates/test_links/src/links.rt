use link_word::{pack_link, unpack_link};
use std::alloc::Global;
use test_rows::{fields, numbers};

// The bits of a word, and the link of these bits.
const WORDS: &str = "\
0;Some(NotWritten)
1;Some(Last)
2;Some(Next(0))
42;Some(Next(40))
43;Some(Next(41))
0x100000000;Some(Next(4294967294))
0x100000001;Some(Next(4294967295))
0x100000002;None
0x200000001;None
0x200000002;None
0xffffffffffffffff;None";

/// Whether bits are the link of their row, and this is packed into these bits.
fn is_link(alloc: Global, row: &str) -> Option<bool> {
    let (bits, wanted) = fields(row)?;
    let [bits] = numbers::<1>("", bits)?;
    let link = unpack_link(bits);
    let told = format!(in alloc; "{link:?}").ok()?;
    let packed = match link {
        Some(link) => pack_link(link),
        None => bits,
    };
    Some(told.as_str() == wanted && packed == bits)
}

#[test]
fn links_have_their_bits(rt: HostRuntime) {
    assert_eq!(rt; WORDS.lines().count(), 11);
    for row in WORDS.lines() {
        assert!(rt; is_link(rt.alloc(), row) == Some(true), "{row}");
    }
}
