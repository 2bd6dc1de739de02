// What the numbers of records say where they name a join, a clause that waits or a type, and a table's where they name
// a run's state.
#![tactic(auto)]

ghost use Rattle.std.specs.Prelude.{◌≡◌};
ghost use Rattle.kinds.specs.Kinds.{join_number, wait_number, type_number, state_cell};
ghost use Rattle.kinds.specs.Kinds.{NamesJoin, NamesWait, NamesType, NamesState};

// How a join joins its two sides: both must be fulfilled, or one of them.
#[derive(Clone, Copy, Debug, PartialEq, Eq)]
pub enum Join {
    And,
    Or,
}

// The clauses that wait for a reading.
#[derive(Clone, Copy, Debug, PartialEq, Eq)]
pub enum WaitKind {
    Obligation,
    Choice,
}

// What a value is.
#[derive(Clone, Copy, Debug, PartialEq, Eq)]
pub enum Type {
    Number,
    Truth,
    Party,
}

// What a run has come to.
#[derive(Clone, Copy, Debug, PartialEq, Eq)]
pub enum RunState {
    Running,
    Fulfilled,
    Breached,
}

// The number names none of these.
#[derive(Clone, Copy, Debug, PartialEq, Eq)]
pub struct Unknown;

impl TryFrom<usize> for Join {
    type Error = Unknown;

    ghost try_from_gives = { NamesJoin };

    fn try_from(number: usize) -> Result<Self, Unknown> {
        match number {
            20 => Ok(Join::And),
            21 => Ok(Join::Or),
            _ => Err(Unknown),
        }
    }
}

impl TryFrom<usize> for WaitKind {
    type Error = Unknown;

    ghost try_from_gives = { NamesWait };

    fn try_from(number: usize) -> Result<Self, Unknown> {
        match number {
            17 => Ok(WaitKind::Obligation),
            18 => Ok(WaitKind::Choice),
            _ => Err(Unknown),
        }
    }
}

impl TryFrom<usize> for Type {
    type Error = Unknown;

    ghost try_from_gives = { NamesType };

    fn try_from(number: usize) -> Result<Self, Unknown> {
        match number {
            1 => Ok(Type::Number),
            2 => Ok(Type::Truth),
            3 => Ok(Type::Party),
            _ => Err(Unknown),
        }
    }
}

impl TryFrom<i64> for RunState {
    type Error = Unknown;

    ghost try_from_gives = { NamesState };

    fn try_from(cell: i64) -> Result<Self, Unknown> {
        match cell {
            1 => Ok(RunState::Running),
            2 => Ok(RunState::Fulfilled),
            3 => Ok(RunState::Breached),
            _ => Err(Unknown),
        }
    }
}

impl From<Join> for usize {
    ghost from_gives = { λ join number. number ≡ join_number join };

    fn from(join: Join) -> usize {
        match join {
            Join::And => 20,
            Join::Or => 21,
        }
    }
}

impl From<WaitKind> for usize {
    ghost from_gives = { λ wait number. number ≡ wait_number wait };

    fn from(wait: WaitKind) -> usize {
        match wait {
            WaitKind::Obligation => 17,
            WaitKind::Choice => 18,
        }
    }
}

impl From<Type> for usize {
    ghost from_gives = { λ ty number. number ≡ type_number ty };

    fn from(ty: Type) -> usize {
        match ty {
            Type::Number => 1,
            Type::Truth => 2,
            Type::Party => 3,
        }
    }
}

impl From<RunState> for i64 {
    ghost from_gives = { λ state cell. cell ≡ state_cell state };

    fn from(state: RunState) -> i64 {
        match state {
            RunState::Running => 1,
            RunState::Fulfilled => 2,
            RunState::Breached => 3,
        }
    }
}
