//! What the program is told to do. `order_of` reads the program's arguments, which come without the program's own name,
//! by one simple command of clap's and a table: `convert`, `check`, `almanac YEAR`, `sample COUNT SEED`, `upgrade` or `east YEAR`,
//! each with an optional `--jobs N`. Arguments that are in no such form are refused.
#![tactic(auto)]

mod command;
mod number;
mod program;
mod words;

pub use command::{Command, NoCommand, Order};
pub use words::order_of;
