// The theorems, for every lawful game and table. Each function does nothing: its contract is the theorem, so that the
// check asks for the proof. Each names the game's rules by itself, since that is what the theorem is about.
ghost use Rattle.search.specs.Promises.{BareRight, SessionsRight, VisitsRight, WorthRight};

use crate::game::Game;
use crate::table::Table;

// The worth is minimax's, and so is the move.
pub fn worth_right<G: Game>()
    ensures { WorthRight G.Game.rules }
{}

// The bare search answers by minimax, by the rules of a visit.
pub fn bare_right<G: Game>()
    ensures { BareRight G.Game.rules G.Game.sets }
{}

// What every visit over a table of true bounds tells, how many visits it makes, and that it can be made.
pub fn visits_right<G: Game, T: Table<G>>()
    ensures { VisitsRight G.Game.rules G.Game.sets (T.Table.memory G.Game.sets) }
{}

// What every list of calls keeps from opening on, and that it can be made.
pub fn sessions_right<G: Game, T: Table<G>>()
    ensures { SessionsRight G.Game.rules G.Game.sets (T.Table.memory G.Game.sets) }
{}
