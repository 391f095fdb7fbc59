/// What stands or goes under a key of a register.
#[derive(Clone, Copy)]
pub(crate) struct Keyed<T> {
    pub(crate) key: u64,
    pub(crate) value: T,
}
