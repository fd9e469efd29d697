ghost use Rattle.std.specs.Prelude.{◌≡◌};
ghost use Rattle.search.specs.Calls.{number as number_of};

// A call of a solver. `cells` is how many trail cells are lent to it.
#[derive(Clone, Copy, Debug, PartialEq, Eq)]
pub enum Call<P> {
    // Is the position worth at least the bound?
    Query {
        position: P,
        bound: u8,
        cells: usize,
    },
    // What is the position worth?
    Solve {
        position: P,
        cells: usize,
    },
    // Which is the first move that reaches what the position is worth?
    Best {
        position: P,
        cells: usize,
    },
    // Empty the table.
    Wipe,
}

// Why a call is refused.
#[derive(Clone, Copy, Debug, PartialEq, Eq)]
pub enum CallError {
    // Fewer trail cells than the height of the position.
    ShortTrail = 1,
    // The best move of an ended position.
    GameOver = 10,
}

impl CallError {
    // The number that the refusal tells. (A cast is not generic, so each numbered enum has its own call.)
    pub fn number(self) -> u8
        ensures { result ≡ number_of self }
    {
        self as u8
    }
}

// What a query answers. Visits are held at `u64::MAX`, here and below.
#[derive(Clone, Copy, Debug, PartialEq, Eq)]
pub struct Answer {
    pub yes: bool,
    pub visits: u64,
}

// What a solve finds.
#[derive(Clone, Copy, Debug, PartialEq, Eq)]
pub struct Solution {
    pub worth: u8,
    pub visits: u64,
}

// The move that best finds, by its number, and what the position is worth.
#[derive(Clone, Copy, Debug, PartialEq, Eq)]
pub struct BestMove {
    pub number: u8,
    pub worth: u8,
    pub visits: u64,
}

// What a call that is not refused answers.
#[derive(Clone, Copy, Debug, PartialEq, Eq)]
pub enum Reply {
    Answered(Answer),
    Solved(Solution),
    Chosen(BestMove),
    Wiped,
}

// What a call comes to.
pub type Outcome = Result<Reply, CallError>;
