/// A connection that came. It has no `Drop`: only who serves it takes it apart.
pub(crate) struct Connection<S, K> {
    pub source: S,
    pub sink: K,
}
