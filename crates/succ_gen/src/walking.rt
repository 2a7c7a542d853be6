// The walk through a tree, from the root to the nodes that a state opens.
ghost use Rattle.std.specs.Prelude.{◌≡◌, ◌<◌, ◌≤◌, ◌+◌, ◌++◌, [], length, slice_index, vec_len};
ghost use Rattle.std.specs.Prelude.{vec_capacity};
ghost use Rattle.std.specs.List.{flat_map};
ghost use Rattle.succ_gen.specs.Trees.{node_at, IsTree, HasVariables, AreInside, operators_of};
ghost use Rattle.succ_gen.specs.Walks.{Rises, IsSought, opened, open_children, AreFound};

use crate::nodes::Node;

/// The node that has a value, of some whose values rise.
fn search(nodes: &[Node], from: usize, to: usize, value: u32) -> Option<usize>
    requires { Rises nodes.now from to }
    ensures { IsSought nodes.now from to value result }
{
    let mut start = from;
    let mut end = to;
    while start < end {
        let middle = start + (end - start) / 2;
        let here = nodes[middle].fact.val;
        if here == value {
            return Some(middle);
        }
        if here < value {
            start = middle + 1;
        } else {
            end = middle;
        }
    }
    None
}

/// The node that has a value, of the group that begins at a node.
///
/// Where no value is left out, the node is as far from the first as its value is; else it is
/// nearer.
fn find(nodes: &[Node], start: usize, end: usize, value: u32) -> Option<usize>
    requires rises { Rises nodes.now start end }
    requires some { start < end }
    ensures { IsSought nodes.now start end value result }
{
    let first = nodes[start].fact.val;
    if value < first {
        return None;
    }
    let farthest = start + (value - first) as usize;
    if farthest < end && nodes[farthest].fact.val == value {
        return Some(farthest);
    }
    search(nodes, start, end.min(farthest), value)
}

/// Adds the node of a group whose fact holds, and says where the group ends.
fn reach_group(nodes: &[Node], state: &[u32], start: usize, reached: &mut Vec<u32>) -> usize
    requires tree { IsTree nodes.now }
    requires variables { HasVariables nodes.now (length state.now) }
    requires some { 0 < start }
    requires inside { start + 1 < length nodes.now }
    requires end { (node_at nodes.now start).group_end < length nodes.now }
    requires room { vec_len reached.old < vec_capacity reached.old }
    ensures end { result ≡ (node_at nodes.now start).group_end }
    ensures reached { reached.new.items ≡
        reached.old.items ++ opened nodes.now state.now start result }
    ensures few { vec_len reached.new ≤ vec_len reached.old + 1 }
    ensures room { vec_capacity reached.new ≡ vec_capacity reached.old }
{
    let first = nodes[start];
    let end = first.group_end as usize;
    if let Some(node) = find(nodes, start, end, state[first.fact.var as usize]) {
        reached.push_reserved(node as u32);
    }
    end
}

/// Adds the children of a node whose facts hold.
fn reach_children(nodes: &[Node], state: &[u32], node: usize, reached: &mut Vec<u32>)
    requires tree { IsTree nodes.now }
    requires variables { HasVariables nodes.now (length state.now) }
    requires node { node + 1 < length nodes.now }
    requires few { vec_len reached.old ≤ (node_at nodes.now node).children }
    requires room { length nodes.now ≤ vec_capacity reached.old + 1 }
    ensures reached { reached.new.items ≡
        reached.old.items ++ open_children nodes.now state.now node }
    ensures few { vec_len reached.new ≤ (node_at nodes.now (node + 1)).children }
    ensures room { vec_capacity reached.new ≡ vec_capacity reached.old }
{
    let end = nodes[node + 1].children as usize;
    let mut group = nodes[node].children as usize;
    while group < end {
        group = reach_group(nodes, state, group, reached);
    }
}

/// Adds the operators that stand at a node.
fn add_operators(nodes: &[Node], operators: &[u32], node: usize, out: &mut Vec<u32>)
    requires node { node + 1 < length nodes.now }
    requires order { (node_at nodes.now node).operators ≤ (node_at nodes.now (node + 1)).operators }
    requires inside { (node_at nodes.now (node + 1)).operators ≤ length operators.now }
    requires few { vec_len out.old ≤ (node_at nodes.now node).operators }
    requires room { length operators.now ≤ vec_capacity out.old }
    ensures out { out.new.items ≡ out.old.items ++ operators_of nodes.now operators.now node }
    ensures room { vec_capacity out.new ≡ vec_capacity out.old }
{
    let start = nodes[node].operators as usize;
    let end = nodes[node + 1].operators as usize;
    for operator in &operators[start..end] {
        out.push_reserved(*operator);
    }
}

/// Goes through a tree, and gives the operators that stand at the nodes that a state opens. The
/// nodes wait in the order in which they are reached.
pub fn walk(
    nodes: &[Node],
    operators: &[u32],
    state: &[u32],
    reached: &mut Vec<u32>,
    out: &mut Vec<u32>,
)
    requires tree { IsTree nodes.now }
    requires variables { HasVariables nodes.now (length state.now) }
    requires inside { AreInside nodes.now (length operators.now) }
    requires reached_room { length nodes.now ≤ vec_capacity reached.old + 1 }
    requires room { length operators.now ≤ vec_capacity out.old }
    ensures operators { AreFound nodes.now operators.now state.now out.new.items }
    ensures reached_room { vec_capacity reached.new ≡ vec_capacity reached.old }
    ensures room { vec_capacity out.new ≡ vec_capacity out.old }
{
    reached.clear();
    out.clear();
    reached.push_reserved(0);
    let mut place = 0;
    while place < reached.len() {
        let node = reached[place] as usize;
        add_operators(nodes, operators, node, out);
        reach_children(nodes, state, node, reached);
        place += 1;
    }
}
