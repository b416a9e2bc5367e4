// A text by places. A place past its end is nowhere: no byte stands there, so that nothing is found from there on.
ghost use Rattle.std.specs.Prelude.{◌≡◌, ◌<◌};
ghost use Rattle.poses.specs.Json.{is_blank};
ghost use Rattle.poses.specs.How.{byte, nowhere, past, after, token};

/// The byte at a place, 0 where there is none.
pub fn byte_at(s: &[u8], i: usize) -> u8
    ensures { result ≡ byte s.now i }
{
    if i < s.len() { s[i] } else { 0 }
}

/// The first place past the end.
pub fn nowhere(s: &[u8]) -> usize
    ensures { result ≡ nowhere s.now }
{
    s.len() + 1
}

// Blank, tab, newline, return.
fn is_blank(b: u8) -> bool
    ensures { result ≡ is_blank b }
{
    (b == 32) | (b == 9) | (b == 10) | (b == 13)
}

/// The place behind the blanks from a place on.
pub fn past(s: &[u8], from: usize) -> usize
    ensures { result ≡ past s.now from }
{
    for i in from..s.len() {
        if !is_blank(s[i]) {
            return i;
        }
    }
    from.max(s.len())
}

/// The place behind the byte c, which is due here.
pub fn after(s: &[u8], i: usize, c: u8) -> usize
    requires { 0 < c }
    ensures { result ≡ after c s.now i }
{
    if byte_at(s, i) == c {
        i + 1
    } else {
        s.len() + 1
    }
}

/// The place behind it and the blanks after it.
pub fn token(s: &[u8], i: usize, c: u8) -> usize
    requires { 0 < c }
    ensures { result ≡ token c s.now i }
{
    past(s, after(s, i, c))
}
