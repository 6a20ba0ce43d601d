// One pass over a line up to its checksum: the sum, whether a `*` stands there, and the largest byte.
ghost use Rattle.std.specs.Prelude.{◌≤◌, ◌≡◌, ◌&&◌, ltb, length, drop};
ghost use Rattle.std.proofs.Math.Seq.{slice};
ghost use Rattle.text.specs.Bytes.{byte};
ghost use Rattle.text.specs.Reader.{among};
ghost use Rattle.utf8.specs.Utf8.{ascii};
ghost use Rattle.frame.specs.Checksum.{checksum};

#[derive(Clone, Copy)]
pub(crate) struct Pass {
    pub sum: u8,
    pub star: bool,
    pub top: u8,
}

// No byte ends the loop early, so that it takes many bytes at a time.
pub(crate) fn one_pass(s: &[u8], to: usize) -> Pass
    requires after_start { 1 ≤ to }
    requires in_text { to ≤ length s.now }
    ensures sum { result.sum ≡ checksum (slice 1 to s.now) }
    ensures star { result.star ≡ among (byte "*") (slice 1 to s.now) }
    ensures top { ascii s.now ≡ (ltb result.top 0x80 && ascii (drop to s.now)) }
{
    let mut sum: u8 = 0;
    let mut star = false;
    let mut top = s[0];
    for i in 1..to {
        let b = s[i];
        sum ^= b;
        star |= b == b'*';
        top = top.max(b);
    }
    Pass { sum, star, top }
}
