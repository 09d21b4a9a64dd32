// Whether a condition is closed: 28.
ghost use Rattle.std.specs.Prelude.{◌≡◌, true, ◌<◌, length};
ghost use Rattle.paper.specs.FreeAndRestricted.{free};
ghost use Rattle.paper.specs.Places.{for_names, findings};
ghost use Rattle.record.specs.Stored.{held};
ghost use Rattle.known.specs.Rows.{Noted};
ghost use Rattle.trees.specs.Trees.{tree_of, condition_of, is_condition};
ghost use Rattle.writes.specs.Walked.{HasRoom, Added};

use paper::NodeNo;
use rows::read::NotedNodes;
use writes::Entries;

// 28 at the node for each of its free names, ascending.
pub fn check_leaf_closed(nodes: &NotedNodes, i: NodeNo, entries: &mut Entries)
    requires i_in_bounds { (i.0 < length (held nodes.now.columns.now)) × (is_condition (tree_of nodes.now.columns.now i.0) ≡ true) }
    requires room { HasRoom (findings (for_names 28 i (free (condition_of nodes.now.columns.now i.0)))) entries.old }
    ensures { Added (findings (for_names 28 i (free (condition_of nodes.now.columns.now i.0)))) entries.old entries.new }
{
    let open = nodes.collect_free(i);
    entries.emit(28, i, open);
}
