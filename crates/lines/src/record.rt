// The walk printer's input: a line read as a record. And the bits by which a float is written.
ghost use Rattle.std.specs.Prelude.{◌≡◌, true, length, drop};
ghost use Rattle.lines.specs.Parts.{tabbeds, all_good, bits_of};
ghost use Rattle.lines.specs.Record.{record_of, place_of, walk_from, walk_of, shown_bits};

use crate::fields;
use crate::fields::Three;
use numbers::patterns;

/// Three coordinates, in metres.
#[derive(Clone, Copy, Debug, PartialEq)]
pub struct Place {
    pub x: f32,
    pub y: f32,
    pub z: f32,
}

/// What a `W` line asks for: the largest move, from where, to where, in metres.
#[derive(Clone, Copy, Debug, PartialEq)]
pub struct Walk {
    pub max_move: f32,
    pub start: Place,
    pub target: Place,
}

/// The record of a line without its newline, `None` where it is no record. A NaN's pattern gives a NaN.
pub fn record_of(s: &[u8]) -> Option<Walk>
    ensures { result ≡ record_of s.now }
{
    if s.len() != 64 {
        return None;
    }
    if s[0] != b'W' {
        return None;
    }
    if seven_tabbed(s) {
        Some(walk_in(s))
    } else {
        None
    }
}

// Whether a tab and eight hex digits follow the letter seven times.
fn seven_tabbed(s: &[u8]) -> bool
    requires { length s.now ≡ 64 }
    ensures { result ≡ all_good true (tabbeds 7 (drop 1 s.now)) }
{
    fields::is_tabbed(s, 1)
        & fields::is_tabbed(s, 10)
        & fields::is_tabbed(s, 19)
        & fields::is_tabbed(s, 28)
        & fields::is_tabbed(s, 37)
        & fields::is_tabbed(s, 46)
        & fields::is_tabbed(s, 55)
}

// The walk of a line that is a record.
fn walk_in(s: &[u8]) -> Walk
    requires { (length s.now ≡ 64) × (all_good true (tabbeds 7 (drop 1 s.now)) ≡ true) }
    ensures { result ≡ walk_of (bits_of (tabbeds 7 (drop 1 s.now))) }
{
    let max_move = fields::bits_at(s, 1);
    let start = Three {
        x: fields::bits_at(s, 10),
        y: fields::bits_at(s, 19),
        z: fields::bits_at(s, 28),
    };
    let target = Three {
        x: fields::bits_at(s, 37),
        y: fields::bits_at(s, 46),
        z: fields::bits_at(s, 55),
    };
    walk_of(max_move, start, target)
}

// The place of three patterns.
fn place_of(p: Three) -> Place
    ensures { result ≡ place_of p }
{
    Place {
        x: patterns::from_pattern(p.x),
        y: patterns::from_pattern(p.y),
        z: patterns::from_pattern(p.z),
    }
}

// The walk of seven patterns.
fn walk_of(max_move: u32, start: Three, target: Three) -> Walk
    ensures { result ≡ walk_from max_move start target }
{
    let from = place_of(start);
    let to = place_of(target);
    Walk {
        max_move: patterns::from_pattern(max_move),
        start: from,
        target: to,
    }
}

/// The bits by which a float is written; those of the usual NaN for every NaN.
pub fn bits_of(x: f32) -> u32
    ensures { result ≡ shown_bits x }
{
    patterns::pattern_of(x).unwrap_or(0x7fc0_0000)
}
