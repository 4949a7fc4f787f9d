/// The result of a look-up in the cache.
#[derive(Clone, Copy, Debug, PartialEq, Eq)]
pub enum Looked {
    /// The path's ordinal.
    Hit(u32),
    /// The cache does not have the path. It may be a label nevertheless.
    Miss,
}
