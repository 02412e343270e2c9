//! What no clause says of the formulas, one file for each crate, and for what several show together.
mod bisection;
mod fine;
mod first_crescents;
mod formula_widths;
mod formulas;
mod hindu;
mod horizon;
mod kept;
mod measures;
mod moon;
mod moonrise;
mod new_moons_by_number;
mod sun;
mod time;
mod zones;
