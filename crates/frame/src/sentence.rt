// A framed sentence, by value: its data is a range of the line that it was read from.
ghost use Rattle.std.specs.Prelude.{true, ◌≡◌, ℕ, [], ◌∷◌};
ghost use Rattle.frame.specs.Types.{types, listed};
ghost use Rattle.frame.specs.Answer.{letters, data_of};

use crate::refusal::{Kind, Talker};

// `$GPGSA,A,1,,,,*32` has the talker GP, the type GSA, the checksum 0x32, and its data `A,1,,,,` from 7 up to 14.
#[derive(Clone, Copy, Debug, PartialEq, Eq)]
pub struct Sentence {
    pub talker: Talker,
    pub kind: Kind,
    pub checksum: u8,
    // The data's first place in the line.
    pub from: usize,
    // The place after the data, where `*` stands.
    pub to: usize,
}

impl Sentence {
    // The longest line, in bytes.
    pub const MAX_LEN: usize = 102;

    // The known types.
    pub const TYPES: [[u8; 3]; 30] = [
        *b"AAM", *b"ALM", *b"APA", *b"BOD", *b"BWC", *b"BWW", *b"DBK", *b"DBS", *b"DPT", *b"GBS",
        *b"GGA", *b"GLL", *b"GNS", *b"GSA", *b"GST", *b"GSV", *b"HDT", *b"MDA", *b"MTW", *b"MWV",
        *b"RMC", *b"RMZ", *b"TTM", *b"TXT", *b"VHW", *b"VTG", *b"WNC", *b"ZDA", *b"ZFO", *b"ZTG",
    ];

    pub fn new(talker: Talker, kind: Kind, checksum: u8, from: usize, to: usize) -> Self
        ensures { result ≡ record { talker = talker; kind = kind; checksum = checksum; from = from; to = to } }
    {
        Self {
            talker,
            kind,
            checksum,
            from,
            to,
        }
    }

    // The data, a part of the line `s`; empty where the range does not lie in `s`.
    pub fn data(self, s: &[u8]) -> &[u8]
        ensures { result.now ≡ data_of self s.now }
    {
        s.get(self.from..self.to).unwrap_or(&[])
    }
}

// The types in the table that begin with a letter.
fn beginning(a: u8) -> &'static [[u8; 3]]
    ensures { (b c : ℕ) → listed types (a ∷ b ∷ c ∷ []) ≡ listed result.now (a ∷ b ∷ c ∷ []) }
{
    let types = &Sentence::TYPES;
    match a {
        b'A' => &types[0..3],
        b'B' => &types[3..6],
        b'D' => &types[6..9],
        b'G' => &types[9..16],
        b'H' => &types[16..17],
        b'M' => &types[17..20],
        b'R' => &types[20..22],
        b'T' => &types[22..24],
        b'V' => &types[24..26],
        b'W' => &types[26..27],
        b'Z' => &types[27..30],
        _ => &[],
    }
}

// Whether a type is one of the six whose data are read: most lines are of these.
fn is_read(kind: Kind) -> bool
    ensures { result ≡ true → listed types (letters kind) ≡ true }
{
    matches!(
        kind,
        Kind(b'G', b'S', b'V')
            | Kind(b'G', b'S', b'A')
            | Kind(b'G', b'G', b'A')
            | Kind(b'G', b'L', b'L')
            | Kind(b'R', b'M', b'C')
            | Kind(b'V', b'T', b'G')
    )
}

// Whether a type is one of the thirty. Those whose data are read are tried first, then those that begin with its letter.
pub fn known(kind: Kind) -> bool
    ensures { result ≡ listed types (letters kind) }
{
    if is_read(kind) {
        return true;
    }
    beginning(kind.0).contains(&[kind.0, kind.1, kind.2])
}
