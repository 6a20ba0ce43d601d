// Where the data end: at the first `*`. A line that ends with its checksum has a `*` as the third byte from its end, and where none
// stands before it, that is the first.
ghost use Rattle.text.specs.Bytes.{byte};
ghost use Rattle.text.specs.Reader.{until};
ghost use Rattle.text.specs.Answer.{Finds, part};

use text::Fault;

// The text up to the first `*`: the place of that byte.
pub fn star(s: &[u8], at: usize) -> Result<usize, Fault>
    ensures { Finds s.now at (until (byte "*")) (part s.now at) result }
{
    if 3 <= s.len() {
        let to = s.len() - 3;
        if at <= to && s[to] == b'*' && !s[at..to].contains(&b'*') {
            return Ok(to);
        }
    }
    text::until(s, at, b'*')
}
