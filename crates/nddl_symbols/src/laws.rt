//! Laws of joined declarations and of places.

ghost use Rattle.std.specs.Prelude.{List};
ghost use Rattle.nddl_ast.specs.declared.declaration.FileDecls.{FileDecls};
ghost use Rattle.eu_name.specs.NameOrder.{IsStrictTotalOrder};
ghost use Rattle.nddl_symbols.specs.Joined.{AreAtSites};
ghost use Rattle.nddl_symbols.specs.Place.{IsPlaceBefore};

/// A law: each joined declaration stands at the site of its number.
pub fn declarations_are_at_their_sites()
    ensures { (files : List FileDecls) → AreAtSites files }
{}

/// A law: places are in a total order.
pub fn places_are_in_order()
    ensures { IsStrictTotalOrder IsPlaceBefore }
{}
