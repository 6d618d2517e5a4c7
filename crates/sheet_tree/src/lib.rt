// Tree text: the tree line of a sheet, read into a tree table.
#![tactic(auto)]

ghost use Rattle.std.specs.Prelude.{◌≡◌, ◌<◌, ◌≤◌, length};
ghost use Rattle.sheet_tree.specs.Parse.{pair_of, tree_of, line_tree};
ghost use Rattle.sheet_tree.specs.Reading.{GivesLine};
ghost use Rattle.sheet_tips.specs.Reading.{RoomForNames, GivesPlace, SameLists};

use parsimony::MOST_NODES;
use sheet_lines::MOST_NAMES;
use sheet_tips::{Nodes, byte_is};

// How deep brackets may nest.
const MOST_DEEP: usize = 128;

// The tree at a place, a bracketed pair or else a name, becomes the next nodes: the place after it.
#[cycle(read_pair_read_tree)]
fn read_tree(
    sheet: &[u8],
    names: &[usize],
    at: usize,
    depth: usize,
    nodes: &mut Nodes,
) -> Option<usize>
    requires { RoomForNames names.now nodes.old }
    ensures gives { GivesPlace (tree_of sheet.now names.now (length names.now) depth nodes.old.marks.now at)
        nodes.old result nodes.new }
    ensures same { SameLists nodes.old nodes.new }
{
    if byte_is(sheet, at, b'(') {
        return read_pair(sheet, names, at, depth, nodes);
    }
    nodes.read_tip(sheet, names, at)
}

// The bracketed pair at a place becomes the next nodes, its two trees and then its own: the place after it.
#[cycle(read_pair_read_tree)]
fn read_pair(
    sheet: &[u8],
    names: &[usize],
    at: usize,
    depth: usize,
    nodes: &mut Nodes,
) -> Option<usize>
    requires room_for_names { RoomForNames names.now nodes.old }
    requires at_in_bounds { at < length sheet.now }
    ensures gives { GivesPlace (pair_of sheet.now names.now (length names.now) depth nodes.old.marks.now at)
        nodes.old result nodes.new }
    ensures same { SameLists nodes.old nodes.new }
{
    if depth == 0 {
        return None;
    }
    let comma = read_tree(sheet, names, at + 1, depth - 1, nodes)?;
    if !byte_is(sheet, comma, b',') {
        return None;
    }
    let a = nodes.made;
    let close = read_tree(sheet, names, comma + 1, depth - 1, nodes)?;
    if !byte_is(sheet, close, b')') {
        return None;
    }
    let b = nodes.made;
    nodes.put_node((a - 1) as u16, (b - 1) as u16);
    Some(close + 1)
}

// The tree line from a place up to its end: a tree with each of the names once, and `;`. Its nodes go into left and
// right from 0 on. The place of the `;`, and the number of nodes.
pub fn tree_line(
    sheet: &[u8],
    names: &[usize],
    at: usize,
    end: usize,
    left: &mut [u16; MOST_NODES],
    right: &mut [u16; MOST_NODES],
) -> Option<(usize, usize)>
    requires { length names.now ≤ 512 }
    ensures { GivesLine (line_tree sheet.now names.now (length names.now) at end)
        left.old right.old result left.new right.new }
{
    let mut marks = [0; MOST_NAMES];
    let mut nodes = Nodes {
        left: &mut left[..],
        right: &mut right[..],
        made: 0,
        marks: &mut marks,
    };
    let stop = read_tree(sheet, names, at, MOST_DEEP, &mut nodes)?;
    let made = nodes.made;
    if !byte_is(sheet, stop, b';') {
        return None;
    }
    if stop + 1 != end {
        return None;
    }
    if made + 1 != 2 * names.len() {
        return None;
    }
    Some((stop, made))
}
