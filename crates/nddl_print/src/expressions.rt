//! Names, values, expressions and types.

ghost use Rattle.std.specs.Prelude.{◌≡◌, ◌++◌, OnOk};
ghost use Rattle.nddl_print.specs.Words.{spaced};
ghost use Rattle.nddl_print.specs.Canonical.{argument_words, base_words, bounds_words, braced, constant_words, creation_words, expr_words, init_words, listed_words, literal_words, name_words, path_words, range_words, type_words, typed_words, value_words};

use super::line::Lines;
use super::lists::{Print, print_following, print_listed};
use eu_name::word::Reserved;
use nddl_ast::declaration::Typed;
use nddl_ast::expression::{
    BaseType, Bounds, Constant, Creation, Expr, Init, Literal, Type, Value,
};
use nddl_ast::name::{Name, Path};
use nddl_grammar::sort::Sort;
use std::alloc::AllocError;

impl Print for Name {
    ghost words = { name_words };

    fn print(&self, lines: &mut Lines) -> Result<(), AllocError> {
        lines.name(self)
    }
}

impl Print for Path {
    ghost words = { path_words };

    fn print(&self, lines: &mut Lines) -> Result<(), AllocError> {
        self.first.print(lines)?;
        print_following(self.rest.as_slice(), Sort::Point, lines)
    }
}

impl Print for Constant {
    ghost words = { constant_words };

    fn print(&self, lines: &mut Lines) -> Result<(), AllocError> {
        match self {
            Constant::Number(value) => lines.number(*value),
            Constant::Decimal(thousandths) => lines.decimal(thousandths.0),
            Constant::Truth(true) => lines.fixed(Sort::Word(Reserved::True)),
            Constant::Truth(false) => lines.fixed(Sort::Word(Reserved::False)),
        }
    }
}

impl Print for Literal {
    ghost words = { literal_words };

    fn print(&self, lines: &mut Lines) -> Result<(), AllocError> {
        self.constant.print(lines)
    }
}

impl Print for Expr {
    ghost words = { expr_words };

    fn print(&self, lines: &mut Lines) -> Result<(), AllocError> {
        match self {
            Expr::Path(path) => path.print(lines),
            Expr::Literal(literal) => literal.print(lines),
        }
    }
}

impl Print for Value {
    ghost words = { value_words };

    fn print(&self, lines: &mut Lines) -> Result<(), AllocError> {
        match self {
            Value::Name(name) => name.print(lines),
            Value::Literal(literal) => literal.print(lines),
        }
    }
}

/// Arguments between parentheses.
pub fn print_arguments(arguments: &[Expr], lines: &mut Lines) -> Result<(), AllocError>
    ensures { OnOk result (lines.new ≡ lines.old ++ spaced (argument_words arguments.now)) }
{
    lines.fixed(Sort::ParenOpen)?;
    print_listed(arguments, lines)?;
    lines.fixed(Sort::ParenClose)
}

impl Print for Creation {
    ghost words = { creation_words };

    fn print(&self, lines: &mut Lines) -> Result<(), AllocError> {
        lines.fixed(Sort::Word(Reserved::New))?;
        self.class.print(lines)?;
        print_arguments(self.arguments.as_slice(), lines)
    }
}

impl Print for Init {
    ghost words = { init_words };

    fn print(&self, lines: &mut Lines) -> Result<(), AllocError> {
        match self {
            Init::Expr(expr) => expr.print(lines),
            Init::New(creation) => creation.print(lines),
        }
    }
}

impl Print for BaseType {
    ghost words = { base_words };

    fn print(&self, lines: &mut Lines) -> Result<(), AllocError> {
        match self {
            BaseType::Int => lines.fixed(Sort::Word(Reserved::Int)),
            BaseType::Float => lines.fixed(Sort::Word(Reserved::Float)),
            BaseType::Bool => lines.fixed(Sort::Word(Reserved::Bool)),
            BaseType::Str => lines.fixed(Sort::Word(Reserved::Str)),
            BaseType::Named(name) => name.print(lines),
        }
    }
}

// Values between brackets, without a comma.
fn print_range(least: &Value, greatest: &Value, lines: &mut Lines) -> Result<(), AllocError>
    ensures { OnOk result (lines.new ≡ lines.old ++ spaced (range_words least.now greatest.now)) }
{
    lines.fixed(Sort::BracketOpen)?;
    least.print(lines)?;
    greatest.print(lines)?;
    lines.fixed(Sort::BracketClose)
}

/// Items between braces, with commas between them.
pub fn print_braced<T: Print>(items: &[T], lines: &mut Lines) -> Result<(), AllocError>
    ensures { OnOk result (lines.new ≡ lines.old ++ spaced (braced (listed_words T.words items.now))) }
{
    lines.fixed(Sort::BraceOpen)?;
    print_listed(items, lines)?;
    lines.fixed(Sort::BraceClose)
}

impl Print for Bounds {
    ghost words = { bounds_words };

    fn print(&self, lines: &mut Lines) -> Result<(), AllocError> {
        match self {
            Bounds::All => Ok(()),
            Bounds::Range {
                least,
                greatest,
                ..
            } => print_range(least, greatest, lines),
            Bounds::Set { values, .. } => print_braced(values.as_slice(), lines),
        }
    }
}

impl Print for Type {
    ghost words = { type_words };

    fn print(&self, lines: &mut Lines) -> Result<(), AllocError> {
        self.base.print(lines)?;
        self.bounds.print(lines)
    }
}

impl Print for Typed {
    ghost words = { typed_words };

    fn print(&self, lines: &mut Lines) -> Result<(), AllocError> {
        self.declared.print(lines)?;
        self.name.print(lines)
    }
}
