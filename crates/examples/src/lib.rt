// Small examples that were worked out by hand, as one fact about the definitions, which the check computes.
#![tactic(auto)]

ghost use Rattle.examples.specs.Boards.{BoardsRight};

// What small boards are worth, their moves, and how many visits their searches make.
pub fn examples_right()
    ensures { BoardsRight }
{}
