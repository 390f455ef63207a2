ghost use Rattle.std.specs.Prelude.{ℕ, IfSome, List};
ghost use Rattle.command_line.specs.CommandSet.{CanBeMade, CanBeRun, IfMakes, command_of, node_of};

/// A schedule that words ask for can be made: packets travel on its stack's network, and its numbers are in their ranges.
pub fn asked_schedules_can_be_made()
    ensures { (words : List (List ℕ)) → IfSome (command_of words) (λ command. IfMakes command CanBeMade) }
{}

/// A node that words ask for can be run: its number and its turns are in their ranges.
pub fn asked_nodes_can_be_run()
    ensures { (words : List (List ℕ)) → IfSome (node_of words) CanBeRun }
{}
