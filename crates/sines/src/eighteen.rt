// Sine and cosine of eighteen angles, six legs of three joints, total on every value. What is done to each row is one straight line, so
// that a compiler for a processor with vectors takes several rows at once. Where the table is asked it can't: that is a loop of its own.
ghost use Rattle.std.specs.Prelude.{◌≡◌, ℕ, ◌<◌, ◌≤◌, map, slice_index};
ghost use Rattle.sines.specs.How.{sixteen, count, turn, entry_at};

use crate::table::Eighths;
use crate::unchecked::Turn;
use crate::{fixed, unchecked};

// Each angle's count.
fn counts(x: [f32; 18]) -> [u64; 18]
    ensures { (result ≡ map count x) × ((k : ℕ) → k < 18 → slice_index result k ≤ sixteen) }
{
    let mut o: [u64; 18] = [0; 18];
    for i in 0..18 {
        o[i] = unchecked::count_of(x[i]);
    }
    o
}

// The table's entry at each count.
fn entries(n: [u64; 18]) -> [Eighths; 18]
    requires { (k : ℕ) → k < 18 → slice_index n k ≤ sixteen }
    ensures { result ≡ map entry_at n }
{
    let mut o: [Eighths; 18] = [Eighths(0, 0); 18];
    for i in 0..18 {
        o[i] = fixed::entry_of(n[i]);
    }
    o
}

/// Sine and cosine of each.
pub fn turns(x: [f32; 18]) -> [Turn; 18]
    ensures { result ≡ map turn x }
{
    let n = counts(x);
    let at = entries(n);
    let mut o: [Turn; 18] = [Turn {
        sine: 0.0,
        cosine: 0.0,
    }; 18];
    for i in 0..18 {
        let both = fixed::both_at(n[i], at[i].0, at[i].1);
        o[i] = unchecked::turned(x[i], n[i], both);
    }
    o
}
