// The checksum: what a sentence's bytes come to, and what its two digits say.
ghost use Rattle.std.specs.Prelude.{◌≡◌};
ghost use Rattle.std.proofs.Math.Seq.{slice};
ghost use Rattle.text.specs.Answer.{Finds, held};
ghost use Rattle.frame.specs.Checksum.{checksum};
ghost use Rattle.frame.specs.Frame.{checksum_field};
ghost use Rattle.frame.specs.Digits.{digit, lead_digit};
ghost use Rattle.frame.specs.Answer.{field};

use text::Fault;

// The exclusive or of the bytes from `from` up to `to`, which is the end where it stands past it.
// No byte ends the loop early, so that it takes many bytes at a time.
pub fn checksum(s: &[u8], from: usize, to: usize) -> u8
    ensures { result ≡ checksum (slice from to s.now) }
{
    let mut x: u8 = 0;
    for i in from..to.min(s.len()) {
        x ^= s[i];
    }
    x
}

// What a byte counts as a hexadecimal digit.
fn digit(b: u8) -> Option<u8>
    ensures { held result ≡ digit b }
{
    match b {
        b'0'..=b'9' => Some(b - b'0'),
        b'A'..=b'F' => Some(b - b'A' + 10),
        b'a'..=b'f' => Some(b - b'a' + 10),
        _ => None,
    }
}

// The same of the first byte, where `+` counts nothing.
fn lead_digit(b: u8) -> Option<u8>
    ensures { held result ≡ lead_digit b }
{
    if b == b'+' {
        return Some(0);
    }
    digit(b)
}

// `*` at the place `at`, and two digits.
pub fn checksum_field(s: &[u8], at: usize) -> Result<u8, Fault>
    ensures { Finds s.now at checksum_field (field at) result }
{
    let [b'*', a, b, ..] = s.get(at..).unwrap_or(&[]) else {
        return Err(Fault::NoMatch);
    };
    match (lead_digit(*a), digit(*b)) {
        (Some(a), Some(b)) => Ok(a * 16 + b),
        _ => Err(Fault::NoMatch),
    }
}
