/// No cell: what comes after the last cell of a chain.
pub const NONE: u32 = 4_294_967_295;

/// An item, with the cells before and after it in its chain. The cell before the first
/// one is the last one.
#[derive(Clone, Copy)]
pub struct Cell<T> {
    pub item: T,
    pub prev: u32,
    pub next: u32,
}
