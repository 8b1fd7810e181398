//! The node of each block: a number by its order and by any frame that it has.

ghost use Rattle.std.specs.Prelude.{◌≡◌, ◌+◌, ◌-◌, ◌*◌, ◌^◌, ◌<◌, ◌≤◌};
ghost use Rattle.buddy_extents.specs.Blocks.{first_node, node, IsBuddy};
ghost use Rattle.pager_model.specs.Bounds.{most_frames};

/// The largest order: a block of it has 512 frames, and is joined with no other.
pub(crate) const LARGEST: u32 = 9;

/// How many nodes there are.
pub(crate) const NODES: u32 = 65_536 - 64;

/// The node of the first block of an order.
pub(crate) fn first_node(order: u32) -> u32
    requires { order ≤ 9 }
    ensures { result ≡ first_node order }
{
    65_536 - (65_536 >> order)
}

/// The node of the block of this order round a frame.
pub(crate) fn node(order: u32, frame: u32) -> u32
    requires order { order ≤ 9 }
    requires frame { frame < most_frames }
    ensures node { result ≡ node order frame }
    ensures below { result < 65472 }
{
    first_node(order) + (frame >> order)
}

/// The order of a node's block.
pub(crate) fn order_of(node: u32) -> u32
    requires { node < 65472 }
    ensures order { result ≤ 9 }
    ensures from { first_node result ≤ node }
    ensures to { node < first_node (result + 1) }
{
    (65_535 - node).leading_zeros() - 16
}

/// The first frame of the block of this order that has the node.
pub(crate) fn first_frame(order: u32, node: u32) -> u32
    requires order { order ≤ 9 }
    requires from { first_node order ≤ node }
    requires to { node < first_node (order + 1) }
    ensures first { result ≡ (node - first_node order) * 2 ^ order }
    ensures known { result < most_frames }
{
    (node - first_node(order)) << order
}

/// A frame of the buddy of the block of this order round a frame: of the other half of the block of the next order.
pub(crate) fn buddy(order: u32, frame: u32) -> u32
    requires order { order ≤ 9 }
    requires frame { frame < most_frames }
    ensures { IsBuddy order frame result }
{
    frame ^ 1 << order
}
