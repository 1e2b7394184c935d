//! What every layer needs of memory: the fault of a refused growth, and lists that contracts see as lists.
#![tactic(auto)]

mod items;
mod out_of_memory;

pub use items::Items;
pub use out_of_memory::OutOfMemory;

#[cfg(test)]
mod tests;
