//! An edit of a map.

/// A change at a key: a value that is put there, or none, where the key is removed.
#[derive(Clone, Copy)]
pub struct Edit<'a> {
    pub key: &'a [u8],
    pub value: Option<&'a [u8]>,
}
