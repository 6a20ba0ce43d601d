// The frame of an NMEA sentence: `$`, talker, type, a comma, data, `*` and a checksum. What stands in it, or why it is refused.
#![tactic(auto)]

mod parse;
mod pass;
mod refusal;
mod sentence;
mod star;
mod sum;

pub use parse::{data_of, parse_nmea_sentence};
pub use refusal::{Kind, Refusal, Talker};
pub use sentence::{Sentence, known};
pub use sum::checksum;
