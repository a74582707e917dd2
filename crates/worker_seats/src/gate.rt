//! Who looks on as blocks are counted.

/// Is told of each block that a worker is about to count. It answers nothing and changes no result.
pub trait Gate {
    /// A worker, by its number from 0, enters a block.
    fn enter(&self, worker: u32, block: u32);
}

/// Lets everyone in at once.
#[derive(Clone, Copy)]
pub struct OpenGate;

impl Gate for OpenGate {
    fn enter(&self, _worker: u32, _block: u32) {}
}
