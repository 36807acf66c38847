//! What tests begin with: worlds of one block that opens at 0, under the own tables, and the steps made in them.

use base::{Shape, Step};
use std::alloc::Global;
use std::process::Abort;
use tables::Tables;
use world::{OpenFault, World};

pub fn shape_of(rt: &impl Abort, caches: u32) -> Shape {
    Shape::new(caches, 1).expect(rt, "a shape")
}

pub fn open_world(alloc: Global, shape: Shape, opening: Vec<u64>) -> Result<World, OpenFault> {
    World::open(alloc, shape, Tables::baseline(), opening)
}

/// A world of so many caches.
pub fn opened(rt: &impl Abort, alloc: Global, caches: u32) -> World {
    let opening = vec![in alloc; 0; 1].expect(rt, "memory");
    open_world(alloc, shape_of(rt, caches), opening).expect(rt, "a world")
}

fn step_of(rt: &impl Abort, line: &str) -> Step {
    Step::read(line.as_bytes()).expect(rt, "a step")
}

pub fn make_all(rt: &impl Abort, world: &mut World, steps: &[&str]) {
    for line in steps {
        let step = step_of(rt, line);
        world.step(step).expect(rt, "memory");
    }
}
