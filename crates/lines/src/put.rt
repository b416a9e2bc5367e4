// Text stored into a lent buffer from a place on: each function gives the place after it. Each asks that what it
// stores lies within the buffer; `listed::put_line` and `compared::put_told` look at
// the room once for a whole line.
ghost use Rattle.std.specs.Prelude.{◌≡◌, ◌∷◌, [], ◌++◌, ◌+◌, ◌%◌, ◌≤◌, length};
ghost use Rattle.lines.specs.Digits.{digit, hex, decimal};
ghost use Rattle.lines.specs.Fields.{tab, newline};
ghost use Rattle.numbers.specs.Stored.{Stored};
ghost use Rattle.lines.specs.Lines.{walk_word};

// The byte of a number's lowest hex digit.
fn digit(n: u64) -> u8
    ensures { result ≡ digit (n % 16) }
{
    b"0123456789abcdef"[(n % 16) as usize]
}

// A letter and a tab.
pub(crate) fn letter(buf: &mut [u8], at: usize, b: u8) -> usize
    requires { at + 2 ≤ length buf.old }
    ensures { Stored buf.old at (b ∷ tab ∷ []) result buf.new }
{
    buf[at] = b;
    buf[at + 1] = 9;
    at + 2
}

// A tab and a letter.
pub(crate) fn mark(buf: &mut [u8], at: usize, b: u8) -> usize
    requires { at + 2 ≤ length buf.old }
    ensures { Stored buf.old at (tab ∷ b ∷ []) result buf.new }
{
    buf[at] = 9;
    buf[at + 1] = b;
    at + 2
}

// The newline that ends a line.
pub(crate) fn newline(buf: &mut [u8], at: usize) -> usize
    requires { at + 1 ≤ length buf.old }
    ensures { Stored buf.old at (newline ∷ []) result buf.new }
{
    buf[at] = 10;
    at + 1
}

// A tab and eight hex digits.
// Kept: eight stores written out: a loop would take the number apart from its end and store backwards, which is no plainer.
pub(crate) fn pattern(buf: &mut [u8], at: usize, n: u32) -> usize
    requires { at + 9 ≤ length buf.old }
    ensures { Stored buf.old at (tab ∷ hex n) result buf.new }
{
    let n7 = n as u64;
    let n6 = n7 / 16;
    let n5 = n6 / 16;
    let n4 = n5 / 16;
    let n3 = n4 / 16;
    let n2 = n3 / 16;
    let n1 = n2 / 16;
    let n0 = n1 / 16;
    buf[at] = 9;
    buf[at + 1] = digit(n0);
    buf[at + 2] = digit(n1);
    buf[at + 3] = digit(n2);
    buf[at + 4] = digit(n3);
    buf[at + 5] = digit(n4);
    buf[at + 6] = digit(n5);
    buf[at + 7] = digit(n6);
    buf[at + 8] = digit(n7);
    at + 9
}

// How many decimal digits a number has.
fn width(n: u64) -> usize
    ensures { result ≡ length (decimal n) }
{
    // Kept: a division at each turn and no index: the number says how often.
    let mut m = n;
    let mut w = 1;
    while 9 < m {
        m = m / 10;
        w += 1;
    }
    w
}

// A number in decimal digits, stored from the last to the first.
pub(crate) fn count(buf: &mut [u8], at: usize, n: u64) -> usize
    requires { at + length (decimal n) ≤ length buf.old }
    ensures { Stored buf.old at (decimal n) result buf.new }
{
    let end = at + width(n);
    // Kept: as in `width`; the digits come from the last to the first.
    let mut j = end - 1;
    let mut m = n;
    while 9 < m {
        buf[j] = digit(m % 10);
        m = m / 10;
        j -= 1;
    }
    buf[j] = digit(m);
    end
}

// The header's name and a tab.
pub(crate) fn name(buf: &mut [u8], at: usize) -> usize
    requires { at + 12 ≤ length buf.old }
    ensures { Stored buf.old at (walk_word ++ (tab ∷ [])) result buf.new }
{
    buf[at..at + 12].copy_from_slice(b"hopper-walk\t");
    at + 12
}
