use thiserror::Error;

/// Why bytes are not metadata: the first thing that is wrong with them.
#[derive(Clone, Copy, Debug, PartialEq, Eq, Error)]
pub enum MetaFault {
    /// There are no bytes, or the first is not the mark of metadata.
    #[error("the mark of metadata is missing")]
    BadMark = 1,
    /// A length points past the end, or does not fit what it measures.
    #[error("a length in the metadata is wrong")]
    BadLength = 2,
    /// No item holds a key.
    #[error("the metadata has no key")]
    NoKey = 3,
    /// There is a key, and no item holds a URL.
    #[error("the metadata has no URL")]
    NoUrl = 4,
    /// A second item holds a key, or a second a URL.
    #[error("the metadata has two keys or two URLs")]
    Repeated = 5,
}
