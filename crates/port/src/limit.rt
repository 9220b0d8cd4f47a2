//! The port itself.

ghost use Rattle.std.specs.Prelude.{◌<◌};

/// A drive behind a port; `limit` is the most blocks that the port lets through at once, 1 to 65,536.
#[derive(Drop)]
pub struct Port<D> {
    pub(crate) inner: D,
    pub(crate) limit: u32,
    ghost some: { 0 < limit },
}
