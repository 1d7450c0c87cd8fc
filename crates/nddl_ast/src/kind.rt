//! The kinds of what can be wrong with a text and with what it includes.

ghost use Rattle.std.specs.Prelude.{◌≡◌};
ghost use Rattle.nddl_ast.specs.Kinds.{kind_rank, kind_word};

/// What is wrong with a text, or with a file that is asked for. Of two at one place the one that stands first here comes
/// first.
#[derive(Clone, Copy, Debug, PartialEq, Eq)]
pub enum TextKind {
    /// No lexeme, blank or comment begins at the byte.
    BadByte,
    /// A comment is never closed.
    OpenComment,
    /// A number is too small or too large, or has too many digits behind its point.
    OutOfRange,
    /// No text of the language goes on in this way.
    Syntax,
    /// There is no such file.
    Absent,
    /// A file has too many bytes.
    LimitBytes,
    /// There are too many files.
    LimitFiles,
    /// A file is included too deep.
    LimitDepth,
    /// A block is nested too deep.
    LimitNesting,
    /// There is nothing of this name.
    Unknown,
    /// The name is declared already, or is the language's own.
    Twice,
    /// A value, a type or a class is of another kind than is wanted.
    WrongType,
    /// There are too many or too few arguments, or a field is set not once.
    WrongCount,
    /// A value lies outside of its type, or numbers are in the wrong order.
    NotInDomain,
    /// An object is made after the making of objects has ended.
    Closed,
    /// A predicate has too many rules.
    LimitRules,
    /// A predicate's rules have too many guards.
    LimitGuards,
    /// A predicate's rules ask for too many tokens.
    LimitSlots,
    /// A predicate's rules have too many local variables.
    LimitLocals,
    /// A predicate's rules have too many constraints and relations.
    LimitItems,
    /// A predicate's rules go over too many objects.
    LimitTurns,
    /// A predicate has too many parameters.
    LimitParameters,
    /// There are too many objects.
    LimitObjects,
    /// There are too many posted tokens.
    LimitRoots,
    /// There are too many global variables.
    LimitGlobals,
    /// There are too many facts.
    LimitFacts,
    /// An enum or a written set has too many members.
    LimitMembers,
    /// Constructors make objects too deep in one another.
    LimitNew,
    /// A decision is refused.
    NotAdmissible,
    /// A decision stands behind those that leave nothing possible.
    AfterConflict,
}

impl TextKind {
    /// The word for it.
    pub fn word(self) -> &'static str
        ensures { result.now ≡ kind_word self }
    {
        match self {
            TextKind::BadByte => "BadByte",
            TextKind::OpenComment => "OpenComment",
            TextKind::OutOfRange => "OutOfRange",
            TextKind::Syntax => "Syntax",
            TextKind::Absent => "Absent",
            TextKind::LimitBytes => "Limit:bytes",
            TextKind::LimitFiles => "Limit:files",
            TextKind::LimitDepth => "Limit:depth",
            TextKind::LimitNesting => "Limit:nesting",
            TextKind::Unknown => "Unknown",
            TextKind::Twice => "Twice",
            TextKind::WrongType => "WrongType",
            TextKind::WrongCount => "WrongCount",
            TextKind::NotInDomain => "NotInDomain",
            TextKind::Closed => "Closed",
            TextKind::LimitRules => "Limit:rules",
            TextKind::LimitGuards => "Limit:guards",
            TextKind::LimitSlots => "Limit:slots",
            TextKind::LimitLocals => "Limit:locals",
            TextKind::LimitItems => "Limit:items",
            TextKind::LimitTurns => "Limit:turns",
            TextKind::LimitParameters => "Limit:parameters",
            TextKind::LimitObjects => "Limit:objects",
            TextKind::LimitRoots => "Limit:roots",
            TextKind::LimitGlobals => "Limit:globals",
            TextKind::LimitFacts => "Limit:facts",
            TextKind::LimitMembers => "Limit:members",
            TextKind::LimitNew => "Limit:new",
            TextKind::NotAdmissible => "NotAdmissible",
            TextKind::AfterConflict => "AfterConflict",
        }
    }

    /// Which one it is, counted from 0: of two faults at one place the lower comes first.
    pub fn rank(self) -> u32
        ensures { result ≡ kind_rank self }
    {
        match self {
            TextKind::BadByte => 0,
            TextKind::OpenComment => 1,
            TextKind::OutOfRange => 2,
            TextKind::Syntax => 3,
            TextKind::Absent => 4,
            TextKind::LimitBytes => 5,
            TextKind::LimitFiles => 6,
            TextKind::LimitDepth => 7,
            TextKind::LimitNesting => 8,
            TextKind::Unknown => 9,
            TextKind::Twice => 10,
            TextKind::WrongType => 11,
            TextKind::WrongCount => 12,
            TextKind::NotInDomain => 13,
            TextKind::Closed => 14,
            TextKind::LimitRules => 15,
            TextKind::LimitGuards => 16,
            TextKind::LimitSlots => 17,
            TextKind::LimitLocals => 18,
            TextKind::LimitItems => 19,
            TextKind::LimitTurns => 20,
            TextKind::LimitParameters => 21,
            TextKind::LimitObjects => 22,
            TextKind::LimitRoots => 23,
            TextKind::LimitGlobals => 24,
            TextKind::LimitFacts => 25,
            TextKind::LimitMembers => 26,
            TextKind::LimitNew => 27,
            TextKind::NotAdmissible => 28,
            TextKind::AfterConflict => 29,
        }
    }
}
