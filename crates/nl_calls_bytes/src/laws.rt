//! Laws of the definitions. Each function stands for the laws that its contract names.
ghost use Rattle.nl_calls_bytes.specs.Laws.{LooksRefuseAll, PagesMakeWrite, RoomRefuses, WritesStep};

use nl_namespace::laws::looks_in_tree;

/// Pages that are put into a file one after the other make what the write makes of its content.
pub fn pages_make_write()
    ensures { PagesMakeWrite }
{}

/// A call that writes is refused for want of room exactly where the step of the tree is, by counts of what is free and of what it adds.
pub fn room_refuses()
    ensures { RoomRefuses }
{}

/// A path that leads to no file is refused as in the tree.
pub fn looks_refuse()
    ensures { LooksRefuseAll }
{
    looks_in_tree();
}

/// The step of a call that writes is refused for the first of these reasons that holds, and else done.
pub fn writes_step()
    ensures { WritesStep }
{}
