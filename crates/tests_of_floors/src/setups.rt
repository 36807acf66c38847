use base::Shape;
use floor::{Setup, SetupFault};
use std::alloc::Global;
use std::process::Abort;
use tables::Tables;

pub fn open_setup(shape: Shape, opening: Vec<u64>) -> Result<Setup, SetupFault> {
    Setup::new(shape, Tables::baseline(), opening, 0, 0)
}

/// So many caches and one block that opens at 0.
pub fn setup(rt: &impl Abort, alloc: Global, caches: u32) -> Setup {
    let shape = Shape::new(caches, 1).expect(rt, "a shape");
    let opening = vec![in alloc; 0].expect(rt, "memory");
    open_setup(shape, opening).expect(rt, "a setup")
}
