//! The law that a least value has no other symbols than those that equations name.
ghost use Rattle.patr_reply.specs.Held.{LibrariesAreHeld};
ghost use Rattle.patr_reply.specs.Naming.{LeastValuesNameSymbols};

/// A least value has no other attributes and atoms than those that the equations of rules and entries name.
pub fn least_values_name_symbols()
    ensures { LeastValuesNameSymbols }
{}

/// A table by which a grammar and a lexicon were read has the texts of their library.
pub fn libraries_are_held()
    ensures { LibrariesAreHeld }
{}
