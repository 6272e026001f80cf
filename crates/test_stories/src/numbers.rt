// Numbers in texts.
use std::alloc::Global;
use std::test::Fail;

/// A failure of a test, in words.
pub fn wrong(what: &'static str) -> Fail {
    Fail::new(what)
}

/// The number that a word is.
pub fn number(word: &str) -> Result<u32, Fail> {
    match word.parse() {
        Ok(number) => Ok(number),
        Err(_) => Err(wrong("a number that is none")),
    }
}

/// The numbers of calls that a word lists. An empty word lists none.
pub fn calls_of(alloc: Global, word: &str) -> Result<Vec<u64>, Fail> {
    let mut calls = Vec::new(alloc);
    for call in word.split(',') {
        if !word.is_empty() {
            calls.push(u64::from(number(call)?))?;
        }
    }
    Ok(calls)
}

/// The numbers of calls that a word lists for each station, with `/` between two stations.
pub fn stations_of(alloc: Global, word: &str) -> Result<Vec<Vec<u64>>, Fail> {
    let mut stations = Vec::new(alloc);
    for station in word.split('/') {
        stations.push(calls_of(alloc, station)?)?;
    }
    Ok(stations)
}
