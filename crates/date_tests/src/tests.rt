//! What no clause says of the calendars and of what stands beside them, one file for each crate, and the facts of their tables.
mod almanac;
mod bahai;
mod chinese;
mod civil;
mod eastern;
mod facts;
mod french;
mod hebrew;
mod hindu;
mod islamic;
mod lines;
mod oracles;
mod persian;
mod spans;
