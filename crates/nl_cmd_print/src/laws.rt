//! Laws of the definitions. Each function stands for the laws that its contract names.
ghost use Rattle.nl_cmd_print.specs.Printed.{ItemsArePrinted};

/// The text of a tree is made of the lines of its items.
pub fn items_are_printed()
    ensures { ItemsArePrinted }
{}
