// The entries of an aggregate, before its body's.
#![tactic(auto)]

ghost use Rattle.std.specs.Prelude.{◌≡◌, true, ◌<◌, length};
ghost use Rattle.paper.specs.Places.{gather, findings};
ghost use Rattle.names.specs.Words.{mem};
ghost use Rattle.record.specs.Stored.{held, Has};
ghost use Rattle.known.specs.Rows.{Noted};
ghost use Rattle.trees.specs.Trees.{tree_of, condition_of, term_of, binders_of, is_condition};
ghost use Rattle.writes.specs.Walked.{HasRoom, Added};
ghost use Rattle.cells.specs.Aggregates.{five, five_of};

use cells::emit_cells;
use names::Names;
use paper::{Node, NodeNo};
use record::access::node_at;
use rows::read::NotedNodes;
use slots::{binder_names, slot_name};
use writes::Entries;

// 22 at the cells, 24 and 25 at the aggregate, 26 and 27 at the cells.
fn check_aggregation(
    nodes: &NotedNodes,
    n: NodeNo,
    summed: Names,
    binders: NodeNo,
    body: NodeNo,
    scope: Names,
    words: Names,
    entries: &mut Entries,
)
    requires has { Has nodes.now.columns.now binders.0 × (body.0 < length (held nodes.now.columns.now)) × (is_condition (tree_of nodes.now.columns.now body.0) ≡ true) }
    requires room { HasRoom (gather findings (five (mem words) n (mem summed) (binders_of nodes.now.columns.now binders.0) (condition_of nodes.now.columns.now body.0) (mem scope))) entries.old }
    ensures { Added (gather findings (five (mem words) n (mem summed) (binders_of nodes.now.columns.now binders.0) (condition_of nodes.now.columns.now body.0) (mem scope))) entries.old entries.new }
{
    let own = binder_names(nodes.columns, binders);
    let inner = nodes.collect_free(body);
    let tied = nodes.collect_range_restricted(body);
    let known = scope | own;
    let unsummed = summed - own;
    let unknown = inner - known;
    let unused = own - inner;
    let untied = own - tied;
    emit_cells(nodes.columns, binders, 22, words, entries);
    entries.emit(24, n, unsummed);
    entries.emit(25, n, unknown);
    emit_cells(nodes.columns, binders, 26, unused, entries);
    emit_cells(nodes.columns, binders, 27, untied, entries);
}

// The same of the aggregate that a node is. Each arm has its call: one call over a tuple of what they give is no plainer, since its proof goes by
// names that the check makes up for the tuple's parts.
pub fn check_agg_expr(
    nodes: &NotedNodes,
    i: NodeNo,
    scope: Names,
    words: Names,
    entries: &mut Entries,
)
    requires has { Has nodes.now.columns.now i.0 }
    requires room { HasRoom (gather findings (five_of (mem words) (term_of nodes.now.columns.now i.0) (mem scope))) entries.old }
    ensures { Added (gather findings (five_of (mem words) (term_of nodes.now.columns.now i.0) (mem scope))) entries.old entries.new }
{
    let node = node_at(nodes.columns, i);
    match node {
        Node::Sum(slot, binders, body) => {
            let summed = slot_name(slot);
            check_aggregation(nodes, i, summed, binders, body, scope, words, entries);
        }
        Node::Count(binders, body) => {
            let summed = Names::empty();
            check_aggregation(nodes, i, summed, binders, body, scope, words, entries);
        }
        _ => {}
    }
}
