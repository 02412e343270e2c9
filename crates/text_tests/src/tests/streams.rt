//! Streams that give and take little at a time, that fail, and that stand in memory or over the standard library.
mod gathered;
mod kept;
mod memory;
mod small;
mod standard;
