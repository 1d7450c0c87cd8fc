//! How much the texts of rules unroll into.

ghost use Rattle.std.specs.Prelude.{◌≡◌};
ghost use Rattle.std.specs.Option.{option_map_or};
ghost use Rattle.nddl_ast.specs.Block.{statements_of, with_statement};
ghost use Rattle.nddl_ast.specs.Tree.{Statements};
ghost use Rattle.nddl_terms.specs.Names.{AreReadInOrder};
ghost use Rattle.nddl_unroll.specs.Amounts.{amounts_and, no_amounts};
ghost use Rattle.nddl_unroll.specs.Counting.{ask_amounts, asked_amounts, call_amounts, class_turns, condition_reads, constraint_amounts, constraint_count, counted_with, guard_amounts, labelled_amounts, local_amounts, named_amounts, own_amounts, pairs_of, related_amounts, relation_amounts, turns_amounts, stand_count, tree_amounts, turn_count};

use super::amounts::Amounts;
use super::reads::{all_reads, begins_with_class, expr_reads, front_reads};
use domain_core::kind::Kind;
use nddl_ast::expression::{Expr, Init};
use nddl_ast::name::{Name, Path};
use nddl_ast::statement::{Ask, Call, Condition, Stmt, StmtBlock};
use nddl_rule_check::words::{constraint_named, relation_named};
use nddl_terms::stands::file_stand;
use nddl_terms::{Lexicon, Meaning, ReadNames, RuleTree, Stand};

// How many two there are among these, and others before them.
fn pairs_of(exprs: &[Expr]) -> u64
    ensures { result ≡ pairs_of exprs.now 0 }
{
    let mut total: u64 = 0;
    for place in 0..exprs.len() {
        total = total.saturating_add((exprs.len() - place - 1) as u64);
    }
    total
}

fn constraint_count(kind: Kind, exprs: &[Expr]) -> u64
    ensures { result ≡ constraint_count kind exprs.now }
{
    match kind {
        Kind::AllDiff => pairs_of(exprs),
        _ => 1,
    }
}

fn constraint_amounts(
    lexicon: &Lexicon,
    names: &ReadNames<'_>,
    kind: Kind,
    exprs: &[Expr],
) -> Amounts
    ensures { result ≡ constraint_amounts lexicon.now names.now.names.now kind exprs.now }
{
    let reads = Amounts::reads(all_reads(lexicon, names, exprs, 0));
    reads.and(Amounts::items(constraint_count(kind, exprs)))
}

// A relation to a token of a predicate alone.
fn own_amounts() -> Amounts
    ensures { result ≡ own_amounts }
{
    Amounts::slot().and(Amounts::items(1))
}

// A relation to a token for which the path asks.
fn asked_amounts(lexicon: &Lexicon, names: &ReadNames<'_>, path: &Path) -> Amounts
    ensures { result ≡ asked_amounts lexicon.now names.now.names.now path.now }
{
    let fields = (path.rest.len() as u64).saturating_sub(1);
    let reads = Amounts::reads(front_reads(lexicon, names, path, fields));
    let items = if begins_with_class(lexicon, names, path) {
        1
    } else {
        2
    };
    reads.and(Amounts::slot().and(Amounts::items(items)))
}

fn related_amounts(lexicon: &Lexicon, names: &ReadNames<'_>, path: &Path) -> Amounts
    ensures { result ≡ related_amounts lexicon.now names.now.names.now path.now path.now.rest }
{
    match path.rest.as_slice().first() {
        None => Amounts::items(1),
        Some(_) => asked_amounts(lexicon, names, path),
    }
}

fn relation_amounts(lexicon: &Lexicon, names: &ReadNames<'_>, exprs: &[Expr]) -> Amounts
    ensures { result ≡ relation_amounts lexicon.now names.now.names.now exprs.now }
{
    match exprs {
        [expr] => match expr {
            Expr::Path(path) => related_amounts(lexicon, names, path),
            Expr::Literal(_) => Amounts::none(),
        },
        _ => Amounts::none(),
    }
}

fn labelled_amounts(lexicon: &Lexicon, names: &ReadNames<'_>, path: &Path) -> Amounts
    ensures { result ≡ labelled_amounts lexicon.now names.now.names.now path.now path.now.rest }
{
    match path.rest.as_slice().first() {
        None => own_amounts(),
        Some(_) => asked_amounts(lexicon, names, path),
    }
}

fn named_amounts(lexicon: &Lexicon, names: &ReadNames<'_>, word: &Name, exprs: &[Expr]) -> Amounts
    ensures { result ≡ named_amounts lexicon.now names.now.names.now word.now exprs.now }
{
    match constraint_named(&word.text) {
        Some(kind) => constraint_amounts(lexicon, names, kind, exprs),
        None => Amounts::none(),
    }
}

fn call_amounts(lexicon: &Lexicon, names: &ReadNames<'_>, call: &Call) -> Amounts
    ensures { result ≡ call_amounts lexicon.now names.now.names.now call.now }
{
    let exprs = call.arguments.as_slice();
    match relation_named(&call.path.first.text) {
        Some(_) => relation_amounts(lexicon, names, exprs),
        None => named_amounts(lexicon, names, &call.path.first, exprs),
    }
}

fn ask_amounts(lexicon: &Lexicon, names: &ReadNames<'_>, ask: &Ask) -> Amounts
    ensures { result ≡ ask_amounts lexicon.now names.now.names.now ask.now }
{
    match relation_named(&ask.word.text) {
        Some(_) => labelled_amounts(lexicon, names, &ask.path),
        None => Amounts::none(),
    }
}

fn local_amounts(lexicon: &Lexicon, names: &ReadNames<'_>, init: &Option<Init>) -> Amounts
    ensures { result ≡ local_amounts lexicon.now names.now.names.now init.now }
{
    match init {
        Some(Init::Expr(expr)) => {
            let reads = Amounts::reads(expr_reads(lexicon, names, expr));
            reads.and(Amounts::local().and(Amounts::items(1)))
        }
        _ => Amounts::local(),
    }
}

fn condition_reads(lexicon: &Lexicon, names: &ReadNames<'_>, condition: &Condition) -> u64
    ensures { result ≡ condition_reads lexicon.now names.now.names.now condition.now }
{
    match condition {
        Condition::Truth(expr) => expr_reads(lexicon, names, expr),
        Condition::Equal(one, other) => expr_reads(lexicon, names, one).saturating_add(expr_reads(
            lexicon, names, other,
        )),
        Condition::NotEqual(one, other) => expr_reads(lexicon, names, one).saturating_add(
            expr_reads(lexicon, names, other),
        ),
    }
}

fn guard_amounts(lexicon: &Lexicon, names: &ReadNames<'_>, condition: &Condition) -> Amounts
    ensures { result ≡ guard_amounts lexicon.now names.now.names.now condition.now }
{
    Amounts::reads(condition_reads(lexicon, names, condition)).and(Amounts::guard())
}

fn class_turns(lexicon: &Lexicon, class: u32) -> u64
    ensures { result ≡ class_turns lexicon.now class }
{
    lexicon.objects(class).len() as u64
}

fn stand_count(lexicon: &Lexicon, stand: Option<Stand>) -> u64
    ensures { result ≡ stand_count lexicon.now stand }
{
    match stand {
        Some(Stand::Class(class)) => class_turns(lexicon, class),
        _ => 0,
    }
}

// How many objects the class has that this means.
fn turn_count(lexicon: &Lexicon, meaning: Option<Meaning>) -> u64
    ensures { result ≡ turn_count lexicon.now meaning }
{
    match meaning {
        Some(Meaning::Scope(place)) => stand_count(lexicon, file_stand(lexicon, place)),
        Some(Meaning::BuiltIn(class)) => class_turns(lexicon, class),
        _ => 0,
    }
}

// A `foreach` with so many turns.
fn repeated(count: u64, inside: Amounts) -> Amounts
    ensures { result ≡ turns_amounts count inside }
{
    Amounts::turns(count).and(inside.times(count))
}

// How much there is with the statements.
#[cycle(counting)]
fn count_stmts(lexicon: &Lexicon, names: &ReadNames<'_>, stmts: &[Stmt], total: Amounts) -> Amounts
    ensures { result ≡ counted_with lexicon.now names.now.names.now (statements_of stmts.now) total }
{
    let mut sum = total;
    for stmt in stmts {
        sum = count_stmt(lexicon, names, stmt, sum);
    }
    sum
}

// How much there is with the statement. With others behind it there is then as much as with these.
#[cycle(counting)]
fn count_stmt(lexicon: &Lexicon, names: &ReadNames<'_>, stmt: &Stmt, total: Amounts) -> Amounts
    ensures { (more : Statements) → counted_with lexicon.now names.now.names.now more result
        ≡ counted_with lexicon.now names.now.names.now (with_statement stmt.now more) total }
{
    match stmt {
        Stmt::Variable(variable) => total.and(local_amounts(lexicon, names, &variable.init)),
        Stmt::Call(call) => total.and(call_amounts(lexicon, names, call)),
        Stmt::Ask(ask) => total.and(ask_amounts(lexicon, names, ask)),
        Stmt::If {
            condition,
            then,
            otherwise,
            ..
        } => {
            let guarded = total.and(guard_amounts(lexicon, names, condition));
            let tested = count_block(lexicon, names, then, guarded);
            count_otherwise(lexicon, names, otherwise, tested)
        }
        Stmt::Foreach { class, body, .. } => {
            let count = turn_count(lexicon, names.meaning(class.at));
            let inside = count_block(lexicon, names, body, Amounts::none());
            total.and(repeated(count, inside))
        }
    }
}

#[cycle(counting)]
fn count_block(
    lexicon: &Lexicon,
    names: &ReadNames<'_>,
    block: &StmtBlock,
    total: Amounts,
) -> Amounts
    ensures { result ≡ counted_with lexicon.now names.now.names.now block.now.statements total }
{
    count_stmts(lexicon, names, block.stmts.as_slice(), total)
}

#[cycle(counting)]
fn count_otherwise(
    lexicon: &Lexicon,
    names: &ReadNames<'_>,
    otherwise: &Option<StmtBlock>,
    total: Amounts,
) -> Amounts
    ensures { result ≡ option_map_or (λ block. counted_with lexicon.now names.now.names.now block.statements total)
        otherwise.now total }
{
    match otherwise {
        Some(block) => count_block(lexicon, names, block, total),
        None => total,
    }
}

/// How much the rule of this text has. Its names stand in order of place.
pub fn tree_amounts(lexicon: &Lexicon, tree: &RuleTree) -> Amounts
    requires { AreReadInOrder tree.now.names }
    ensures { result ≡ tree_amounts lexicon.now tree.now }
{
    let names = ReadNames::new(tree.names.as_slice());
    count_stmts(lexicon, &names, tree.body.as_slice(), Amounts::none())
}
