//! The laws on what types are made of.
ghost use Rattle.cond_declarators.specs.Laws.{BasesAreThere, ObjectsAreThere};

/// The structs that types are made of are there: where words name a type, and where an object's declarator does.
pub fn types_are_there()
    ensures bases { BasesAreThere }
    ensures objects { ObjectsAreThere }
{}
