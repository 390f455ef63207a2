ghost use Rattle.disk.specs.Between.{may_become_between};
ghost use Rattle.disk.specs.Disk.{may_become};
ghost use Rattle.act_disks.specs.NodeLaws.{NodesAreLinearizable};

use node_body::Commands;

/// Single acts of the nodes of a cluster, of any machine over the commands `C`, whose areas are saved and opened by the acts of real
/// nodes, with whatever a crash may leave at each stop, where each new state can be saved.
pub fn nodes_are_linearizable<C: Commands, S, O>()
    ensures { NodesAreLinearizable may_become S O C.stack C.format }
{}

/// The same of a crash that may leave an area with a length between two of those that it had.
pub fn nodes_are_linearizable_between<C: Commands, S, O>()
    ensures { NodesAreLinearizable may_become_between S O C.stack C.format }
{}
