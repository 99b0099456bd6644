//! What is true of lists that are classes, with no code.
ghost use Rattle.class_touches.specs.Laws.{ListsTouchAsClasses, ListsAreReadAsClasses};

/// The law that a list which is a class is read exactly where the class is touched, to be cited in proofs; the call does nothing.
pub fn lists_touch_as_classes()
    ensures { ListsTouchAsClasses }
{}

/// The law that it is read while a name is a macro exactly where the class is; the call does nothing.
pub fn lists_are_read_as_classes()
    ensures { ListsAreReadAsClasses }
{}
