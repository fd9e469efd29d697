// Sets of positions, by their runs.
ghost use Rattle.std.specs.Prelude.{◌≡◌, ◌≤◌};
ghost use Rattle.kayles.specs.Kayles.{Describes, set_of};
ghost use Rattle.kayles.specs.Limits.{most_pins};
ghost use Rattle.kayles.specs.Rows.{row};
ghost use Rattle.kayles.specs.Tallies.{all_runs, named, pins_named, unit, word_of};

use crate::board::{Board, MOST_PINS};
use crate::position::Position;

// The positions that have a side to move and so many runs of each length.
#[derive(Clone, Copy, PartialEq, Eq)]
pub struct RunSet {
    // How many runs there are of 1, 2, .. 32 pins, as the digits of one number in mixed radices, and below them the standing
    // pins in six bits. So the runs of two sets are compared as one word.
    pub(crate) word: u64,
    pub(crate) counting: bool,
}

// What a run of 0, 1, .. 32 pins adds to a set's word.
const UNITS: [u64; 33] = [
    0,
    65,
    1090,
    13059,
    117508,
    822533,
    4935174,
    24675847,
    123379208,
    493516809,
    1974067210,
    7896268811,
    23688806412,
    71066419213,
    213199257614,
    639597772815,
    1918793318416,
    3837586636817,
    7675173273618,
    15350346547219,
    30700693094420,
    61401386188821,
    122802772377622,
    245605544755223,
    491211089510424,
    982422179020825,
    1964844358041626,
    3929688716083227,
    7859377432166428,
    15718754864332829,
    31437509728665630,
    62875019457331231,
    125750038914662432,
];

fn unit_of(len: u8) -> u64
    requires { len ≤ most_pins }
    ensures { result ≡ unit len }
{
    UNITS[len as usize]
}

// The word of a board's runs.
fn word_of(board: Board) -> u64
    ensures { result ≡ word_of (all_runs (row board)) }
{
    let mut word = 0;
    for run in board.runs() {
        word += unit_of(run.len);
    }
    word
}

impl RunSet {
    // The set of a position: its side to move, and how many runs it has of each length. It is no `From`: a set forgets its
    // position.
    pub fn of(p: Position) -> RunSet
        ensures value { result ≡ set_of p }
        ensures meaning { Describes p result }
    {
        RunSet {
            word: word_of(p.board),
            counting: p.counting,
        }
    }

    // How many standing pins the set names, which is its weight: they are the lowest six bits of its word.
    pub(crate) fn pins(self) -> u8
        ensures { result ≡ pins_named self }
    {
        (self.word & 63) as u8
    }

    // How many runs of that many pins the set names.
    pub fn runs(self, len: u8) -> u8
        ensures { result ≡ named self len }
    {
        if len == 0 || len > MOST_PINS {
            return 0;
        }
        let place = unit_of(len) - len as u64;
        let radix = (MOST_PINS + 1) / (len + 1) + 1;
        (self.word / place % radix as u64) as u8
    }
}
