// Valid UTF-8 by RFC 3629, section 4: a state and a step for one byte, so that a text may come in pieces of any size, and the check of
// a whole text, which is a step for each of its bytes. Also whether a text is ASCII.
#![tactic(auto)]

ghost use Rattle.std.specs.Prelude.{◌≡◌, cond};
ghost use Rattle.std.proofs.Math.Option.{none};
ghost use Rattle.utf8.specs.Rfc3629.{utf8_char};
ghost use Rattle.utf8.specs.Utf8.{within, follow, step, may_end, utf8, ascii};
ghost use Rattle.utf8.specs.Answer.{pending};

// What the bytes so far leave open. Each of the nine is left by some bytes, and bytes leave no other; a text begins at `Whole`.
#[derive(Clone, Copy, Debug, PartialEq, Eq)]
pub enum Utf8 {
    // Only whole characters so far.
    Whole,
    // No bytes that follow make the text valid.
    Broken,
    // So many bytes must follow, each from 0x80 to 0xBF.
    Tail1,
    Tail2,
    Tail3,
    // After this first byte two bytes must follow, three after 0xF0 and 0xF4, and the next one has a narrower range.
    AfterE0,
    AfterED,
    AfterF0,
    AfterF4,
}

// The state after the first byte of a character.
fn lead(b: u8) -> Utf8
    ensures { pending result ≡ follow utf8_char b }
{
    match b {
        0x00..=0x7F => Utf8::Whole,
        0xC2..=0xDF => Utf8::Tail1,
        0xE0 => Utf8::AfterE0,
        0xE1..=0xEC => Utf8::Tail2,
        0xED => Utf8::AfterED,
        0xEE..=0xEF => Utf8::Tail2,
        0xF0 => Utf8::AfterF0,
        0xF1..=0xF3 => Utf8::Tail3,
        0xF4 => Utf8::AfterF4,
        _ => Utf8::Broken,
    }
}

// The state `next` after a byte from `lo` to `hi`; any other byte breaks the text.
fn within(b: u8, lo: u8, hi: u8, next: Utf8) -> Utf8
    ensures { pending result ≡ cond (within (lo, hi) b) (pending next) none }
{
    if lo <= b && b <= hi {
        next
    } else {
        Utf8::Broken
    }
}

// The state after one byte more.
#[tactic(auto, unfolding(crate::specs::Utf8::step))]
pub fn step(state: Utf8, b: u8) -> Utf8
    ensures { pending result ≡ step (pending state) b }
{
    match state {
        Utf8::Whole => lead(b),
        Utf8::Broken => Utf8::Broken,
        Utf8::Tail1 => within(b, 0x80, 0xBF, Utf8::Whole),
        Utf8::Tail2 => within(b, 0x80, 0xBF, Utf8::Tail1),
        Utf8::Tail3 => within(b, 0x80, 0xBF, Utf8::Tail2),
        Utf8::AfterE0 => within(b, 0xA0, 0xBF, Utf8::Tail1),
        Utf8::AfterED => within(b, 0x80, 0x9F, Utf8::Tail1),
        Utf8::AfterF0 => within(b, 0x90, 0xBF, Utf8::Tail2),
        Utf8::AfterF4 => within(b, 0x80, 0x8F, Utf8::Tail2),
    }
}

// Whether the bytes so far are whole characters alone: the text may end here.
pub fn whole(state: Utf8) -> bool
    ensures { result ≡ may_end (pending state) }
{
    matches!(state, Utf8::Whole)
}

// Whether a text is valid UTF-8.
pub fn is_utf8(s: &[u8]) -> bool
    ensures { result ≡ utf8 s.now }
{
    let mut state = Utf8::Whole;
    for b in s {
        state = step(state, *b);
    }
    whole(state)
}

// Whether all bytes of a text are ASCII: whether the largest is. No byte ends the loop early, so that it takes many bytes at a time.
pub fn is_ascii(s: &[u8]) -> bool
    ensures { result ≡ ascii s.now }
{
    let mut top: u8 = 0;
    for b in s {
        top = top.max(*b);
    }
    top < 0x80
}
