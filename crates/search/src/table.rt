ghost use Rattle.std.specs.Prelude.{◌≡◌};
ghost use Rattle.search.specs.Sets.{Sets};
ghost use Rattle.search.specs.Tables.{Memory, MemoryLaws};

use crate::entry::Entry;
use crate::game::Game;

// A table of entries. It refuses nothing. What it may do depends on the game only through its sets.
pub trait Table<G: Game> {
    ghost memory: { Sets G.Position G.Set → Memory G.Position G.Set Self };

    // An entry that decides b for the position of that probe, or none.
    fn look(&self, v: &G::Probe, b: u8) -> Option<Entry<G::Set>>
        ensures { (p : G.Position) → v.now ≡ G.Game.probed p → (memory G.Game.sets).looks self.now p b result };

    // Offers an entry to the table, which may drop others for it, or not keep it at all.
    fn keep(&mut self, e: &Entry<G::Set>)
        ensures { (memory G.Game.sets).keeps self.old e.now self.new };

    // Leaves nothing held.
    fn wipe(&mut self)
        ensures { (memory G.Game.sets).wipes self.old self.new };

    ghost lawful: { (Z : Sets G.Position G.Set) → MemoryLaws Z (memory Z) };
}
