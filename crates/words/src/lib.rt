// The words of an answer, put straight into words that are lent: 40 for each, or none where there is no room for 40.
#![tactic(auto)]

mod gga_words;
mod gll_words;
mod gsa_words;
mod gsv_words;
mod other;
mod part;
mod record;
mod refused;
mod rmc_words;
mod vtg_words;

pub use gga_words::put_gga;
pub use gll_words::put_gll;
pub use gsa_words::put_gsa;
pub use gsv_words::{AZIMUTH, ELEVATION, ENTRY_WORDS, SATELLITE, SIGNAL, put_gsv};
pub use other::put_other;
pub use refused::put_refused;
pub use rmc_words::put_rmc;
pub use vtg_words::put_vtg;

// How many words an answer has.
pub const WORDS: usize = 40;
