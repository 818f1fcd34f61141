//! A machine's world: its objects, and what else requests read and change.
//! What requests come to is in `calls.rt`, `sending.rt` and `managing.rt`.

use crate::codes::CheckedCodes;
use crate::generators::GeneratorList;
use py_exceptions::ExceptionZoo;
use py_objects::{AttrMap, Store};
use std::alloc::Global;

/// What requests read and change of a machine.
#[derive(Drop)]
pub(crate) struct World {
    pub alloc: Global,
    pub store: Store,
    /// The built-in exception classes.
    pub zoo: ExceptionZoo,
    /// The first object that is declared under each name.
    pub declarations: AttrMap,
    /// The codes that functions name.
    pub codes: CheckedCodes,
    /// The generators, with the activations of those that were left.
    pub generators: GeneratorList,
}
