//! Laws of files that a shelf gives.

ghost use Rattle.std.specs.Prelude.{All, List};
ghost use Rattle.nddl_ast.specs.declared.declaration.FileDecls.{FileDecls};
ghost use Rattle.nddl_symbols.specs.Joined.{joined_decls};
ghost use Rattle.nddl_laws.specs.Given.{AreGiven, StandOnce};
ghost use Rattle.nddl_laws.specs.Trees.{HasText, IsJoinedDecl, JoinsFew, ReadsTrees};

/// A law: of files that a shelf gives each declaration stands among the joined ones exactly once, those of one file in
/// their order, and nothing else does.
pub fn each_declaration_stands_once()
    ensures { (files : List FileDecls) → AreGiven files → StandOnce files }
{}

/// A law: each file that a shelf gives is what a text that isn't too long is read as.
pub fn files_are_read_from_texts()
    ensures { (files : List FileDecls) → AreGiven files → All (λ file. HasText file.decls) files }
{}

/// A law: in what a text is read as names are names, literals are in range, no set and no enum is empty, and nodes rise
/// and lie in the text.
pub fn texts_are_read_as_trees()
    ensures { ReadsTrees }
{}

/// A law: of files that a shelf gives there are no more joined declarations than bytes in them.
pub fn few_declarations_are_joined()
    ensures { (files : List FileDecls) → AreGiven files → JoinsFew files }
{}

/// A law: of files that a shelf gives no joined declaration is an include; its names are names, its literals in range,
/// its sets and its enums not empty, and its nodes rise within the bytes of a text.
pub fn each_joined_declaration_is_fine()
    ensures { (files : List FileDecls) → AreGiven files → All IsJoinedDecl (joined_decls files) }
{}
