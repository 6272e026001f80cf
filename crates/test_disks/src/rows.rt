// The calls that a row lists.
use std::alloc::Global;
use std::test::Fail;

/// The numbers of calls that a field lists, with `,` between each two. An empty field lists none.
pub(crate) fn calls(alloc: Global, field: &str) -> Result<Vec<u64>, Fail> {
    let mut calls = Vec::new(alloc);
    for call in field.split(',') {
        if !call.is_empty() {
            calls.push(call.parse()?)?;
        }
    }
    Ok(calls)
}
