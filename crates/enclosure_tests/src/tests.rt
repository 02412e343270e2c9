//! What no clause says of the numbers, one file for each crate, and for what several show together.
mod arc_spans;
mod arc_widths;
mod arcs;
mod decisions;
mod measures;
mod model;
mod operations;
mod quotients;
mod rough;
mod searches;
mod sine_spans;
mod sines;
mod whole_sums;
