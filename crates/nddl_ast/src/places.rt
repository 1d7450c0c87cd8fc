//! At which byte the parts of a tree begin.

ghost use Rattle.std.specs.Prelude.{◌≡◌};
ghost use Rattle.nddl_ast.specs.Places.{path_place, expr_place, value_place, init_place, stmt_place, part_place, set_place, member_place, decl_place};

use super::declaration::{Decl, Member, PredicatePart, Set};
use super::expression::{Expr, Init, Value};
use super::name::Path;
use super::statement::Stmt;

impl Path {
    /// Where its first name begins.
    pub fn place(&self) -> u32
        ensures { result ≡ path_place self.now }
    {
        self.first.at
    }
}

impl Expr {
    pub fn place(&self) -> u32
        ensures { result ≡ expr_place self.now }
    {
        match self {
            Expr::Path(path) => path.place(),
            Expr::Literal(literal) => literal.at,
        }
    }
}

impl Value {
    pub fn place(&self) -> u32
        ensures { result ≡ value_place self.now }
    {
        match self {
            Value::Name(name) => name.at,
            Value::Literal(literal) => literal.at,
        }
    }
}

impl Init {
    /// Where the expression begins, or the word `new`.
    pub fn place(&self) -> u32
        ensures { result ≡ init_place self.now }
    {
        match self {
            Init::Expr(expr) => expr.place(),
            Init::New(creation) => creation.at,
        }
    }
}

impl Stmt {
    /// Where its type, its path or its word begins.
    pub fn place(&self) -> u32
        ensures { result ≡ stmt_place self.now }
    {
        match self {
            Stmt::Variable(variable) => variable.declared.at,
            Stmt::Call(call) => call.path.place(),
            Stmt::Ask(ask) => ask.word.at,
            Stmt::If { at, .. } | Stmt::Foreach { at, .. } => *at,
        }
    }
}

impl PredicatePart {
    pub fn place(&self) -> u32
        ensures { result ≡ part_place self.now }
    {
        match self {
            PredicatePart::Parameter(typed) => typed.declared.at,
            PredicatePart::Constraint(call) => call.path.place(),
        }
    }
}

impl Set {
    pub fn place(&self) -> u32
        ensures { result ≡ set_place self.now }
    {
        match self {
            Set::Field { name, .. } => name.at,
            Set::Super { at, .. } => *at,
        }
    }
}

impl Member {
    /// Where its type, the word `predicate` or its name begins.
    pub fn place(&self) -> u32
        ensures { result ≡ member_place self.now }
    {
        match self {
            Member::Field(typed) => typed.declared.at,
            Member::Predicate { at, .. } => *at,
            Member::Constructor { name, .. } => name.at,
        }
    }
}

impl Decl {
    /// Where its first lexeme begins.
    pub fn place(&self) -> u32
        ensures { result ≡ decl_place self.now }
    {
        match self {
            Decl::Include { at, .. }
            | Decl::Enum { at, .. }
            | Decl::Typedef { at, .. }
            | Decl::Forward { at, .. }
            | Decl::Class { at, .. } => *at,
            Decl::Rule { class, .. } => class.at,
            Decl::Variable(variable) => variable.declared.at,
            Decl::Call(call) => call.path.place(),
            Decl::Ask(ask) => ask.word.at,
        }
    }
}
