//! The eastern calendars' sky, re-exported under one name: the oracle that moves the facts of the Chinese rules to Hanoi, Seoul
//! or Tokyo (`moved_oracle`), and by how many hours the time of these places is ahead of universal time (`time_scales`).
#![tactic(auto)]

pub use moved_oracle::Moved;
pub use time_scales::zone_at;
