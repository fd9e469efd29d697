// The runs of a board.
ghost use Rattle.std.specs.Prelude.{◌≡◌, MatchOption};
ghost use Rattle.std.specs.Iterator.{YieldsFirst, item_count};
ghost use Rattle.kayles.specs.Rows.{row};
ghost use Rattle.kayles.specs.Runs.{FirstRun, NoRun, RunsOf};
ghost use Rattle.kayles.specs.Tallies.{all_runs, runs_left};

use crate::board::Board;

// A run: `len` pins from pin `first` on, counted from 1.
#[derive(Clone, Copy, PartialEq, Eq, Debug)]
pub struct Run {
    pub first: u8,
    pub len: u8,
}

// The runs of a board, from the left, as `Board::runs` gives them.
#[derive(Clone, Drop)]
pub struct Runs {
    // The board with the runs that were given taken off.
    left: Board,
}

impl Board {
    // All runs, from the left.
    pub fn runs(self) -> Runs
        ensures value { runs_left result ≡ all_runs (row self) }
        ensures meaning { RunsOf (row self) (runs_left result) }
    {
        Runs { left: self }
    }

    // The first of the runs that begin at pin `from` or later.
    pub fn next_run(self, from: u8) -> Option<Run>
        ensures { MatchOption result (NoRun (row self) from) (FirstRun (row self) from) }
    {
        self.runs().find(|run| run.first >= from)
    }
}

impl Iterator for Runs {
    type Item = Run;

    ghost next_gives = { YieldsFirst runs_left };

    ghost remaining = { item_count runs_left };

    fn next(&mut self) -> Option<Run> {
        // In 64 bits there is room for a pin behind the last.
        let pins = self.left.standing as u64;
        if pins == 0 {
            return None;
        }
        let down = pins.trailing_zeros();
        // With the places before the run filled up, one more carries through the run to the place behind it.
        let carried = (pins | (pins - 1)) + 1;
        let end = carried.trailing_zeros();
        self.left.standing = (pins & carried) as u32;
        Some(Run {
            first: down as u8 + 1,
            len: (end - down) as u8,
        })
    }
}
