// Fields that are more than a number: time, date, position and magnetic variation, each of which may be absent, alone and with its comma;
// letters, and units.
// A reader follows the Rust's of its name: the parts from left to right, and the next place.
#![tactic(auto)]

mod date;
mod letter;
mod place;
mod position;
mod time;
mod variation;

pub use date::{Day, opt_date, parse_date};
pub use letter::{letter_place, unit_letter, unit_place};
pub use place::{date_place, position_place, short_place, time_place};
pub use position::{Both, Coordinate, do_parse_lat_lon, parse_lat_lon};
pub use time::{TimeOfDay, opt_hms, parse_hms};
pub use variation::{do_parse_magnetic_variation, parse_magnetic_variation};
