// What a position tells of what the two files have there, and how positions and differences are counted.
ghost use Rattle.std.specs.Prelude.{◌≡◌, true};
ghost use Rattle.compare.specs.Seen.{read};
ghost use Rattle.compare.specs.Step.{told_moves, told_numbers, told_lines, tell};
ghost use Rattle.compare.specs.Step.{up, is_difference, is_last, total_after, start, step_of};

use crate::seen;
use crate::seen::Seen;
use lines::compared::{Both, Told};
use lines::listed::{Line, Moved};

/// Between two positions: the version of each file, the position that comes next, and how many differed before it. At 2^64 - 1 the last two
/// stay where they are.
#[derive(Clone, Copy, Debug, PartialEq, Eq)]
pub struct State {
    pub bench: u32,
    pub office: u32,
    pub position: u64,
    pub total: u64,
}

/// What a position tells, and the state after it.
#[derive(Clone, Copy, Debug, PartialEq, Eq)]
pub struct Step {
    pub told: Told,
    pub next: State,
}

/// Before line 1.
pub fn start() -> State
    ensures { result ≡ start }
{
    State {
        bench: 0,
        office: 0,
        position: 1,
        total: 0,
    }
}

// Two steps.
fn told_moves(position: u64, bench: Moved, office: Moved) -> Told
    ensures { result ≡ told_moves position bench office }
{
    if bench == office {
        Told::Same
    } else {
        Told::Moves(Both {
            position,
            bench,
            office,
        })
    }
}

// Two lines of one letter, with their numbers.
fn told_numbers(position: u64, bench: u32, office: u32) -> Told
    ensures { result ≡ told_numbers position bench office }
{
    if bench == office {
        Told::Same
    } else {
        Told::Differs(position)
    }
}

// Two good lines. Two headers are no difference, whatever their versions.
#[tactic(auto, unfolding(crate::specs::Step::told_lines))]
fn told_lines(position: u64, bench: Line, office: Line) -> Told
    ensures { result ≡ told_lines position bench office }
{
    match (bench, office) {
        (Line::Header(_), Line::Header(_)) => Told::Same,
        (Line::Move(b), Line::Move(o)) => told_moves(position, b, o),
        (Line::Arrived(b), Line::Arrived(o)) => told_numbers(position, b, o),
        (Line::Refused(b), Line::Refused(o)) => told_numbers(position, b, o),
        _ => Told::Differs(position),
    }
}

// What a position tells. A bad line on either side is a refusal; after the last line of both comes the total.
#[tactic(auto, unfolding(crate::specs::Step::tell))]
fn tell(position: u64, total: u64, bench: Seen, office: Seen) -> Told
    ensures { result ≡ tell position total bench office }
{
    match (bench, office) {
        (Seen::Bad, _) | (_, Seen::Bad) => Told::Refused(position),
        (Seen::Good(b), Seen::Good(o)) => told_lines(position, b, o),
        (Seen::Nothing, Seen::Nothing) => Told::Total(total),
        _ => Told::Differs(position),
    }
}

// One more, up to 2^64 - 1.
#[tactic(auto, unfolding(crate::specs::Step::up))]
fn up(n: u64) -> u64
    ensures { result ≡ up n }
{
    n.saturating_add(1)
}

// Whether a position differs: once, however many coordinates do.
#[tactic(auto, unfolding(crate::specs::Step::is_difference))]
fn is_difference(told: Told) -> bool
    ensures { result ≡ is_difference told }
{
    matches!(told, Told::Differs(_) | Told::Moves(_))
}

/// Whether nothing more is told: after a refusal and after the total.
#[tactic(auto, unfolding(crate::specs::Step::is_last))]
pub fn is_last(told: Told) -> bool
    ensures { result ≡ is_last told }
{
    matches!(told, Told::Refused(_) | Told::Total(_))
}

// The total after a position.
fn total_after(total: u64, told: Told) -> u64
    ensures { result ≡ total_after total told }
{
    if is_difference(told) {
        up(total)
    } else {
        total
    }
}

/// One position, by what the two files have there.
pub fn position(st: State, bench: Seen, office: Seen) -> Step
    ensures { result ≡ step_of st bench office }
{
    let told = tell(st.position, st.total, bench, office);
    Step {
        told,
        next: State {
            bench: seen::version_after(st.bench, bench),
            office: seen::version_after(st.office, office),
            position: up(st.position),
            total: total_after(st.total, told),
        },
    }
}

// Whether two lines are the same in files of the same version: then one of them need not be read.
fn is_twice(st: State, bench: &[u8], office: &[u8]) -> bool
    ensures { result ≡ true → (st.bench ≡ st.office) × (bench.now ≡ office.now) }
{
    st.bench == st.office && bench == office
}

/// One position where both files have a line, by their bytes.
pub fn lines(st: State, bench: &[u8], office: &[u8]) -> Step
    ensures { result ≡ step_of st (read st.bench bench.now) (read st.office office.now) }
{
    let b = seen::read(st.bench, bench);
    if is_twice(st, bench, office) {
        return position(st, b, b);
    }
    let o = seen::read(st.office, office);
    position(st, b, o)
}
