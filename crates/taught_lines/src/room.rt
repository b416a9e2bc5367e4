// The room that lines on taught poses share.

/// The most bytes that are shown at once.
const MOST_SHOWN: usize = 128;

/// 5,200 bytes, of which the first `len` are lent to the calls.
#[derive(Drop)]
pub struct Room {
    bytes: [u8; 5200],
    len: usize,
}

impl Room {
    /// Every byte is ff, and 5,120 are lent.
    pub fn new() -> Room {
        Room {
            bytes: [0xff; 5200],
            len: 5120,
        }
    }

    /// What is lent.
    pub fn lent(&mut self) -> &mut [u8] {
        let len = self.len.min(5200);
        &mut self.bytes[..len]
    }

    /// So many bytes are lent from now on. `None` where there are fewer.
    pub fn lend(&mut self, len: usize) -> Option<()> {
        if 5200 < len {
            return None;
        }
        self.len = len;
        Some(())
    }

    /// The host's own hand changes a byte, lent or not. `None` where there is no such place.
    pub fn poke(&mut self, at: usize, byte: u8) -> Option<()> {
        *self.bytes.get_mut(at)? = byte;
        Some(())
    }

    /// From 1 to 128 bytes from a place on. `None` where they are fewer, more, or not all there.
    pub fn peek(&self, at: usize, len: usize) -> Option<&[u8]> {
        if (len == 0) | (MOST_SHOWN < len) {
            return None;
        }
        self.bytes.get(at..at.checked_add(len)?)
    }
}
