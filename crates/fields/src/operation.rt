// The operations by the names that their lines begin with.

/// What a line asks for.
#[derive(Clone, Copy, Debug, PartialEq, Eq)]
pub enum Operation {
    Numbers(Numbers),
    Legs(Legs),
    Moves(Moves),
    Walking(Walking),
    Poses(Poses),
    Taught(Taught),
    WholeStep,
    Conductor(Conductor),
}

/// On numbers.
#[derive(Clone, Copy, Debug, PartialEq, Eq)]
pub enum Numbers {
    Absolute,
    SquareRoot,
    Sine,
    Cosine,
    ArcCosine,
    Min,
    Max,
    Atan2,
    FromBits,
}

/// On six legs.
#[derive(Clone, Copy, Debug, PartialEq, Eq)]
pub enum Legs {
    Select,
    Update,
    Merge,
}

/// On foot moves, of a point or of six feet.
#[derive(Clone, Copy, Debug, PartialEq, Eq)]
pub enum Moves {
    Move,
    Iterate,
    Next,
    Walk,
    MoveFeet,
    IterateFeet,
    NextFeet,
    WalkFeet,
    LongestDistance,
}

/// On commands, steps and joints.
#[derive(Clone, Copy, Debug, PartialEq, Eq)]
pub enum Walking {
    TimedProgress,
    EvenProgress,
    Step,
    TimedStep,
    EvenStep,
    SetOut,
    SetOutTimed,
    SetOutEven,
    ShouldMove,
    NewCommand,
    FullCommand,
    DefaultCommand,
    Plan,
    Inverse,
    StrictInverse,
    Forward,
    Invert,
    Flag,
    Flags,
    Constants,
    Defaults,
}

/// On poses as JSON.
#[derive(Clone, Copy, Debug, PartialEq, Eq)]
pub enum Poses {
    Read,
    Write,
}

/// On taught poses, which share one room.
#[derive(Clone, Copy, Debug, PartialEq, Eq)]
pub enum Taught {
    Fresh,
    Put,
    Get,
    Remove,
    List,
    Lend,
    Poke,
    Peek,
}

/// On the conductor, over rows of bytes.
#[derive(Clone, Copy, Debug, PartialEq, Eq)]
pub enum Conductor {
    Conduct,
    Stand,
    Command,
}

fn on_numbers(name: &[u8]) -> Option<Numbers> {
    match name {
        b"abs" => Some(Numbers::Absolute),
        b"sqrt" => Some(Numbers::SquareRoot),
        b"sin" => Some(Numbers::Sine),
        b"cos" => Some(Numbers::Cosine),
        b"acos" => Some(Numbers::ArcCosine),
        b"min" => Some(Numbers::Min),
        b"max" => Some(Numbers::Max),
        b"atan2" => Some(Numbers::Atan2),
        b"bits" => Some(Numbers::FromBits),
        _ => None,
    }
}

fn on_legs(name: &[u8]) -> Option<Legs> {
    match name {
        b"sel" => Some(Legs::Select),
        b"upd" => Some(Legs::Update),
        b"merge" => Some(Legs::Merge),
        _ => None,
    }
}

fn on_moves(name: &[u8]) -> Option<Moves> {
    match name {
        b"mv" => Some(Moves::Move),
        b"iter" => Some(Moves::Iterate),
        b"next" => Some(Moves::Next),
        b"walk" => Some(Moves::Walk),
        b"mv6" => Some(Moves::MoveFeet),
        b"iter6" => Some(Moves::IterateFeet),
        b"next6" => Some(Moves::NextFeet),
        b"walk6" => Some(Moves::WalkFeet),
        b"ldist" => Some(Moves::LongestDistance),
        _ => None,
    }
}

fn on_walking(name: &[u8]) -> Option<Walking> {
    match name {
        b"tprog" => Some(Walking::TimedProgress),
        b"eprog" => Some(Walking::EvenProgress),
        b"step" => Some(Walking::Step),
        b"tstep" => Some(Walking::TimedStep),
        b"estep" => Some(Walking::EvenStep),
        b"siter" => Some(Walking::SetOut),
        b"titer" => Some(Walking::SetOutTimed),
        b"eiter" => Some(Walking::SetOutEven),
        b"should" => Some(Walking::ShouldMove),
        b"cnew" => Some(Walking::NewCommand),
        b"cwith" => Some(Walking::FullCommand),
        b"cdef" => Some(Walking::DefaultCommand),
        b"plan" => Some(Walking::Plan),
        b"ik" => Some(Walking::Inverse),
        b"iks" => Some(Walking::StrictInverse),
        b"fk" => Some(Walking::Forward),
        b"inv" => Some(Walking::Invert),
        b"flag" => Some(Walking::Flag),
        b"flags" => Some(Walking::Flags),
        b"consts" => Some(Walking::Constants),
        b"defaults" => Some(Walking::Defaults),
        _ => None,
    }
}

fn on_taught(name: &[u8]) -> Option<Taught> {
    match name {
        b"tfresh" => Some(Taught::Fresh),
        b"tput" => Some(Taught::Put),
        b"tget" => Some(Taught::Get),
        b"tdrop" => Some(Taught::Remove),
        b"tlist" => Some(Taught::List),
        b"tlend" => Some(Taught::Lend),
        b"tpoke" => Some(Taught::Poke),
        b"tpeek" => Some(Taught::Peek),
        _ => None,
    }
}

// On poses as JSON, in whole numbers and on the conductor.
fn on_bytes(name: &[u8]) -> Option<Operation> {
    match name {
        b"jread" => Some(Operation::Poses(Poses::Read)),
        b"jwrite" => Some(Operation::Poses(Poses::Write)),
        b"wstep" => Some(Operation::WholeStep),
        b"conduct" => Some(Operation::Conductor(Conductor::Conduct)),
        b"cstand" => Some(Operation::Conductor(Conductor::Stand)),
        b"ccommand" => Some(Operation::Conductor(Conductor::Command)),
        _ => None,
    }
}

// Those whose lines have marks and whose answers show them.
fn with_marks(name: &[u8]) -> Option<Operation> {
    match name {
        b"selm" => Some(Operation::Legs(Legs::Select)),
        b"updm" => Some(Operation::Legs(Legs::Update)),
        b"mergem" => Some(Operation::Legs(Legs::Merge)),
        b"mv6m" => Some(Operation::Moves(Moves::MoveFeet)),
        b"walk6m" => Some(Operation::Moves(Moves::WalkFeet)),
        b"stepm" => Some(Operation::Walking(Walking::Step)),
        b"tstepm" => Some(Operation::Walking(Walking::TimedStep)),
        b"estepm" => Some(Operation::Walking(Walking::EvenStep)),
        b"planm" => Some(Operation::Walking(Walking::Plan)),
        b"fkm" => Some(Operation::Walking(Walking::Forward)),
        _ => None,
    }
}

// Those whose lines have none.
fn without_marks(name: &[u8]) -> Option<Operation> {
    if let Some(numbers) = on_numbers(name) {
        return Some(Operation::Numbers(numbers));
    }
    if let Some(legs) = on_legs(name) {
        return Some(Operation::Legs(legs));
    }
    if let Some(moves) = on_moves(name) {
        return Some(Operation::Moves(moves));
    }
    if let Some(walking) = on_walking(name) {
        return Some(Operation::Walking(walking));
    }
    if let Some(taught) = on_taught(name) {
        return Some(Operation::Taught(taught));
    }
    on_bytes(name)
}

/// The operation of a name, and whether feet of its line and of its answer have marks. Zero bytes before a name are passed over, but before
/// `jread`; it has at most eight bytes with them.
pub(crate) fn named(name: &[u8]) -> Option<(Operation, bool)> {
    let zeros = name.iter().take_while(|b| **b == 0).count();
    if 8 < name.len() {
        return None;
    }
    let name = &name[zeros..];
    match without_marks(name) {
        Some(Operation::Poses(Poses::Read)) if 0 < zeros => None,
        Some(Operation::Taught(taught)) => Some((Operation::Taught(taught), true)),
        Some(operation) => Some((operation, false)),
        None => Some((with_marks(name)?, true)),
    }
}
