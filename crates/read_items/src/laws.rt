//! Facts about the definitions.
ghost use Rattle.read_items.specs.Items.{ItemsAreCounted};

/// The lists of a state have exactly the items that its triples begin.
pub fn items_are_counted()
    ensures { ItemsAreCounted }
{}
