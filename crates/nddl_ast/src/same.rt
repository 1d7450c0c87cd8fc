//! Comparing trees without regard to places.

ghost use Rattle.std.specs.Prelude.{◌↔◌, IsTrue};
ghost use Rattle.nddl_ast.specs.Same.{AllSame, BothSame, SameName, SamePath, SameLiteral, SameExpr, SameValue, SameBase, SameBounds, SameType, SameCreation, SameInit, SameVariable, SameCall, SameAsk, SameCondition, SameBlock, SameTyped, SamePart, SameSet, SameMember, SameDecl};
ghost use Rattle.nddl_ast.specs.Unplaced.{SameIsEqual, SameIsAnEquivalence};
ghost use Rattle.nddl_ast.specs.SameStatement.{SameStmt};
ghost use Rattle.nddl_ast.specs.declared.declaration.Decl.TheVariants as decls;

use super::declaration::{Decl, Member, PredicatePart, Set, Typed};
use super::expression::{BaseType, Bounds, Creation, Expr, Init, Literal, Type, Value};
use super::name::{Name, Path};
use super::statement::{Ask, Call, Condition, Stmt, StmtBlock, Variable};
use eu_name::bytes::Bytes;

/// What can be compared without regard to places.
pub trait Same {
    ghost same: { Self → Self → Type 0 };

    /// Whether the two are equal but for the places in them.
    fn is_same(&self, other: &Self) -> bool
        ensures { IsTrue result ↔ same self.now other.now };
}

/// Whether the lists are equally long and the same item by item.
pub fn are_same<T: Same>(one: &[T], other: &[T]) -> bool
    ensures { IsTrue result ↔ AllSame T.same one.now other.now }
{
    if one.len() != other.len() {
        return false;
    }
    for (i, x) in one.iter().enumerate() {
        if !x.is_same(&other[i]) {
            return false;
        }
    }
    true
}

// Whether both are there and the same, or neither is.
fn both_same<T: Same>(one: &Option<T>, other: &Option<T>) -> bool
    ensures { IsTrue result ↔ BothSame T.same one.now other.now }
{
    match (one, other) {
        (Some(one), Some(other)) => one.is_same(other),
        (None, None) => true,
        _ => false,
    }
}

impl Same for Name {
    ghost same = { SameName };

    fn is_same(&self, other: &Name) -> bool {
        self.text.as_bytes() == other.text.as_bytes()
    }
}

impl Same for Path {
    ghost same = { SamePath };

    fn is_same(&self, other: &Path) -> bool {
        self.first.is_same(&other.first) && are_same(self.rest.as_slice(), other.rest.as_slice())
    }
}

impl Same for Literal {
    ghost same = { SameLiteral };

    fn is_same(&self, other: &Literal) -> bool {
        self.constant == other.constant
    }
}

impl Same for Expr {
    ghost same = { SameExpr };

    fn is_same(&self, other: &Expr) -> bool {
        match (self, other) {
            (Expr::Path(one), Expr::Path(other)) => one.is_same(other),
            (Expr::Literal(one), Expr::Literal(other)) => one.is_same(other),
            _ => false,
        }
    }
}

impl Same for Value {
    ghost same = { SameValue };

    fn is_same(&self, other: &Value) -> bool {
        match (self, other) {
            (Value::Name(one), Value::Name(other)) => one.is_same(other),
            (Value::Literal(one), Value::Literal(other)) => one.is_same(other),
            _ => false,
        }
    }
}

impl Same for BaseType {
    ghost same = { SameBase };

    fn is_same(&self, other: &BaseType) -> bool {
        match (self, other) {
            (BaseType::Int, BaseType::Int) => true,
            (BaseType::Float, BaseType::Float) => true,
            (BaseType::Bool, BaseType::Bool) => true,
            (BaseType::Str, BaseType::Str) => true,
            (BaseType::Named(one), BaseType::Named(other)) => one.is_same(other),
            _ => false,
        }
    }
}

impl Same for Bounds {
    ghost same = { SameBounds };

    fn is_same(&self, other: &Bounds) -> bool {
        match (self, other) {
            (Bounds::All, Bounds::All) => true,
            (
                Bounds::Range {
                    least,
                    greatest,
                    ..
                },
                Bounds::Range {
                    least: other_least,
                    greatest: other_greatest,
                    ..
                },
            ) => least.is_same(other_least) && greatest.is_same(other_greatest),
            (
                Bounds::Set { values, .. },
                Bounds::Set {
                    values: other_values,
                    ..
                },
            ) => are_same(values.as_slice(), other_values.as_slice()),
            _ => false,
        }
    }
}

impl Same for Type {
    ghost same = { SameType };

    fn is_same(&self, other: &Type) -> bool {
        self.base.is_same(&other.base) && self.bounds.is_same(&other.bounds)
    }
}

impl Same for Creation {
    ghost same = { SameCreation };

    fn is_same(&self, other: &Creation) -> bool {
        self.class.is_same(&other.class)
            && are_same(self.arguments.as_slice(), other.arguments.as_slice())
    }
}

impl Same for Init {
    ghost same = { SameInit };

    fn is_same(&self, other: &Init) -> bool {
        match (self, other) {
            (Init::Expr(one), Init::Expr(other)) => one.is_same(other),
            (Init::New(one), Init::New(other)) => one.is_same(other),
            _ => false,
        }
    }
}

impl Same for Variable {
    ghost same = { SameVariable };

    fn is_same(&self, other: &Variable) -> bool {
        self.declared.is_same(&other.declared)
            && self.name.is_same(&other.name)
            && both_same(&self.init, &other.init)
    }
}

impl Same for Call {
    ghost same = { SameCall };

    fn is_same(&self, other: &Call) -> bool {
        self.path.is_same(&other.path)
            && are_same(self.arguments.as_slice(), other.arguments.as_slice())
    }
}

impl Same for Ask {
    ghost same = { SameAsk };

    fn is_same(&self, other: &Ask) -> bool {
        self.word.is_same(&other.word)
            && self.path.is_same(&other.path)
            && self.label.is_same(&other.label)
    }
}

impl Same for Condition {
    ghost same = { SameCondition };

    fn is_same(&self, other: &Condition) -> bool {
        match (self, other) {
            (Condition::Truth(one), Condition::Truth(other)) => one.is_same(other),
            (Condition::Equal(one, second), Condition::Equal(other, other_second)) => {
                one.is_same(other) && second.is_same(other_second)
            }
            (Condition::NotEqual(one, second), Condition::NotEqual(other, other_second)) => {
                one.is_same(other) && second.is_same(other_second)
            }
            _ => false,
        }
    }
}

// Whether two statements are equal but for places; below it lists of them, and blocks, which may be missing.
#[cycle(same)]
fn same_stmt(one: &Stmt, other: &Stmt) -> bool
    ensures { IsTrue result ↔ SameStmt one.now other.now }
{
    match (one, other) {
        (Stmt::Variable(one), Stmt::Variable(other)) => one.is_same(other),
        (Stmt::Call(one), Stmt::Call(other)) => one.is_same(other),
        (Stmt::Ask(one), Stmt::Ask(other)) => one.is_same(other),
        (
            Stmt::If {
                condition,
                then,
                otherwise,
                ..
            },
            Stmt::If {
                condition: other_condition,
                then: other_then,
                otherwise: other_otherwise,
                ..
            },
        ) => {
            condition.is_same(other_condition)
                && same_block(then, other_then)
                && both_same_blocks(otherwise, other_otherwise)
        }
        (
            Stmt::Foreach {
                variable,
                class,
                body,
                ..
            },
            Stmt::Foreach {
                variable: other_variable,
                class: other_class,
                body: other_body,
                ..
            },
        ) => {
            variable.is_same(other_variable)
                && class.is_same(other_class)
                && same_block(body, other_body)
        }
        _ => false,
    }
}

#[cycle(same)]
fn both_same_blocks(one: &Option<StmtBlock>, other: &Option<StmtBlock>) -> bool
    ensures { IsTrue result ↔ BothSame SameBlock one.now other.now }
{
    match (one, other) {
        (Some(one), Some(other)) => same_block(one, other),
        (None, None) => true,
        _ => false,
    }
}

#[cycle(same)]
fn same_stmts(one: &[Stmt], other: &[Stmt]) -> bool
    ensures { IsTrue result ↔ AllSame SameStmt one.now other.now }
{
    if one.len() != other.len() {
        return false;
    }
    for (i, x) in one.iter().enumerate() {
        if !same_stmt(x, &other[i]) {
            return false;
        }
    }
    true
}

#[cycle(same)]
fn same_block(one: &StmtBlock, other: &StmtBlock) -> bool
    ensures { IsTrue result ↔ SameBlock one.now other.now }
{
    same_stmts(one.stmts.as_slice(), other.stmts.as_slice())
}

impl Same for StmtBlock {
    ghost same = { SameBlock };

    fn is_same(&self, other: &StmtBlock) -> bool {
        same_block(self, other)
    }
}

impl Same for Typed {
    ghost same = { SameTyped };

    fn is_same(&self, other: &Typed) -> bool {
        self.declared.is_same(&other.declared) && self.name.is_same(&other.name)
    }
}

impl Same for PredicatePart {
    ghost same = { SamePart };

    fn is_same(&self, other: &PredicatePart) -> bool {
        match (self, other) {
            (PredicatePart::Parameter(one), PredicatePart::Parameter(other)) => one.is_same(other),
            (PredicatePart::Constraint(one), PredicatePart::Constraint(other)) => one.is_same(
                other,
            ),
            _ => false,
        }
    }
}

impl Same for Set {
    ghost same = { SameSet };

    fn is_same(&self, other: &Set) -> bool {
        match (self, other) {
            (
                Set::Field { name, value },
                Set::Field {
                    name: other_name,
                    value: other_value,
                },
            ) => name.is_same(other_name) && value.is_same(other_value),
            (
                Set::Super { arguments, .. },
                Set::Super {
                    arguments: other_arguments,
                    ..
                },
            ) => are_same(arguments.as_slice(), other_arguments.as_slice()),
            _ => false,
        }
    }
}

impl Same for Member {
    ghost same = { SameMember };

    fn is_same(&self, other: &Member) -> bool {
        match (self, other) {
            (Member::Field(one), Member::Field(other)) => one.is_same(other),
            (
                Member::Predicate { name, parts, .. },
                Member::Predicate {
                    name: other_name,
                    parts: other_parts,
                    ..
                },
            ) => name.is_same(other_name) && are_same(parts.as_slice(), other_parts.as_slice()),
            (
                Member::Constructor {
                    name,
                    formals,
                    sets,
                },
                Member::Constructor {
                    name: other_name,
                    formals: other_formals,
                    sets: other_sets,
                },
            ) => {
                name.is_same(other_name)
                    && are_same(formals.as_slice(), other_formals.as_slice())
                    && are_same(sets.as_slice(), other_sets.as_slice())
            }
            _ => false,
        }
    }
}

// Whether the declaration is the same as an include of the file.
fn is_include(decl: &Decl, file: &Bytes) -> bool
    ensures { IsTrue result ↔ SameDecl (decls.Include 0 file.now 0) decl.now }
{
    match decl {
        Decl::Include { file: other, .. } => file.as_slice() == other.as_slice(),
        _ => false,
    }
}

// Whether it is the same as an enum.
fn is_enum(decl: &Decl, name: &Name, members: &[Name]) -> bool
    ensures { IsTrue result ↔ SameDecl (decls.Enum 0 name.now 0 members.now) decl.now }
{
    match decl {
        Decl::Enum {
            name: other_name,
            members: other,
            ..
        } => name.is_same(other_name) && are_same(members, other.as_slice()),
        _ => false,
    }
}

// Whether it is the same as a `typedef`.
fn is_typedef(decl: &Decl, declared: &Type, name: &Name) -> bool
    ensures { IsTrue result ↔ SameDecl (decls.Typedef 0 declared.now name.now) decl.now }
{
    match decl {
        Decl::Typedef {
            declared: other,
            name: other_name,
            ..
        } => declared.is_same(other) && name.is_same(other_name),
        _ => false,
    }
}

// Whether it is the same as a class that is only named.
fn is_forward(decl: &Decl, name: &Name) -> bool
    ensures { IsTrue result ↔ SameDecl (decls.Forward 0 name.now) decl.now }
{
    match decl {
        Decl::Forward { name: other, .. } => name.is_same(other),
        _ => false,
    }
}

// Whether it is the same as a class.
fn is_class(decl: &Decl, name: &Name, parent: &Option<Name>, members: &[Member]) -> bool
    ensures { IsTrue result ↔ SameDecl (decls.Class 0 name.now parent.now members.now) decl.now }
{
    match decl {
        Decl::Class {
            name: other_name,
            parent: other_parent,
            members: other_members,
            ..
        } => {
            name.is_same(other_name)
                && both_same(parent, other_parent)
                && are_same(members, other_members.as_slice())
        }
        _ => false,
    }
}

// Whether it is the same as a rule.
fn is_rule(decl: &Decl, class: &Name, predicate: &Name, body: &StmtBlock) -> bool
    ensures { IsTrue result ↔ SameDecl (decls.Rule class.now predicate.now body.now) decl.now }
{
    match decl {
        Decl::Rule {
            class: other_class,
            predicate: other_predicate,
            body: other,
        } => {
            class.is_same(other_class) && predicate.is_same(other_predicate) && body.is_same(other)
        }
        _ => false,
    }
}

// Whether it is the same as a variable.
fn is_variable(decl: &Decl, variable: &Variable) -> bool
    ensures { IsTrue result ↔ SameDecl (decls.Variable variable.now) decl.now }
{
    match decl {
        Decl::Variable(other) => variable.is_same(other),
        _ => false,
    }
}

// Whether it is the same as a call.
fn is_call(decl: &Decl, call: &Call) -> bool
    ensures { IsTrue result ↔ SameDecl (decls.Call call.now) decl.now }
{
    match decl {
        Decl::Call(other) => call.is_same(other),
        _ => false,
    }
}

// Whether it is the same as what asks for something.
fn is_ask(decl: &Decl, ask: &Ask) -> bool
    ensures { IsTrue result ↔ SameDecl (decls.Ask ask.now) decl.now }
{
    match decl {
        Decl::Ask(other) => ask.is_same(other),
        _ => false,
    }
}

impl Same for Decl {
    ghost same = { SameDecl };

    fn is_same(&self, other: &Decl) -> bool {
        match self {
            Decl::Include { file, .. } => is_include(other, file),
            Decl::Enum { name, members, .. } => is_enum(other, name, members.as_slice()),
            Decl::Typedef { declared, name, .. } => is_typedef(other, declared, name),
            Decl::Forward { name, .. } => is_forward(other, name),
            Decl::Class {
                name,
                parent,
                members,
                ..
            } => is_class(other, name, parent, members.as_slice()),
            Decl::Rule {
                class,
                predicate,
                body,
            } => is_rule(other, class, predicate, body),
            Decl::Variable(variable) => is_variable(other, variable),
            Decl::Call(call) => is_call(other, call),
            Decl::Ask(ask) => is_ask(other, ask),
        }
    }
}

/// Declarations are the same where they are equal once their places are 0.
pub fn same_is_equal()
    ensures { SameIsEqual }
{}

/// To be the same is an equivalence.
pub fn same_is_an_equivalence()
    ensures { SameIsAnEquivalence }
{}
