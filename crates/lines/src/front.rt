// The first bytes of a line, in a row of fixed size.
ghost use Rattle.std.specs.Prelude.{◌≡◌, ◌+◌, ◌<◌, ◌≤◌, ◌++◌, [], length, take, MatchOption, ◌==◌};

use crate::carry::kept;

/// The first bytes of a line, at most 128: the first `len` of the row, or all of it where `len` is above 128.
// Kept: a row with a length beside it: no heap, and what is kept of a line is copied with the printer, which a library vector of fixed
// size cannot be. Each row with each length is one, so that a host may keep it, take it apart and build it again.
#[derive(Clone, Copy)]
pub struct Front {
    pub bytes: [u8; 128],
    pub len: usize,
}

impl Front {
    /// No bytes.
    pub fn empty() -> Front
        ensures { take result.len result.bytes ≡ [] }
    {
        Front {
            bytes: [0; 128],
            len: 0,
        }
    }

    /// Whether there are none.
    pub fn is_empty(&self) -> bool
        ensures { result ≡ (length (take self.now.len self.now.bytes) == 0) }
    {
        self.len == 0
    }

    /// The bytes.
    pub fn as_slice(&self) -> &[u8]
        ensures { result.now ≡ take self.now.len self.now.bytes }
    {
        &self.bytes[..kept(self.len)]
    }

    /// These bytes and some more, `None` where they are more than 128.
    pub fn with(self, s: &[u8]) -> Option<Front>
        ensures { MatchOption result (128 < length (take self.len self.bytes) + length s.now)
            (λ r. (take r.len r.bytes ≡ take self.len self.bytes ++ s.now)
            × (length (take self.len self.bytes) + length s.now ≤ 128)) }
    {
        let from = kept(self.len);
        if 128 - from < s.len() {
            return None;
        }
        let to = from + s.len();
        let mut bytes = self.bytes;
        bytes[from..to].copy_from_slice(s);
        Some(Front { bytes, len: to })
    }
}
