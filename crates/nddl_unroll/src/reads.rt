//! How many fields paths read of what isn't a known object.

ghost use Rattle.std.specs.Prelude.{◌≡◌};
ghost use Rattle.nddl_unroll.specs.Reads.{all_reads, begins_with_class, expr_reads, file_reads, front_reads, is_class_meaning, is_class_stand, meaning_reads};

use model_core::item::Term;
use nddl_ast::expression::Expr;
use nddl_ast::name::Path;
use nddl_terms::stands::file_stand;
use nddl_terms::{Lexicon, Meaning, ReadNames, Stand};

// Of so many names behind one of the files.
fn file_reads(stand: Option<Stand>, count: u64) -> u64
    ensures { result ≡ file_reads stand count }
{
    match stand {
        Some(
            Stand::Value {
                term: Term::Lit(_),
                ..
            },
        ) => 0,
        Some(Stand::Value { .. }) => count,
        Some(Stand::Slot { .. }) => count.saturating_sub(1),
        Some(Stand::Root { .. }) => count.saturating_sub(1),
        _ => 0,
    }
}

// Of so many names behind a name with this meaning, in the rule or in the files.
fn meaning_reads(lexicon: &Lexicon, meaning: Option<Meaning>, count: u64) -> u64
    ensures { result ≡ meaning_reads lexicon.now meaning count }
{
    match meaning {
        Some(Meaning::Local(_)) => count,
        Some(Meaning::Here(_)) => count,
        Some(Meaning::Slot(_)) => count.saturating_sub(1),
        Some(Meaning::Scope(place)) => file_reads(file_stand(lexicon, place), count),
        _ => 0,
    }
}

/// How many fields the path reads, if so many of its names behind the first are parts or fields.
pub fn front_reads(lexicon: &Lexicon, names: &ReadNames<'_>, path: &Path, count: u64) -> u64
    ensures { result ≡ front_reads lexicon.now names.now.names.now path.now count }
{
    meaning_reads(lexicon, names.meaning(path.first.at), count)
}

/// How many an argument reads.
pub fn expr_reads(lexicon: &Lexicon, names: &ReadNames<'_>, expr: &Expr) -> u64
    ensures { result ≡ expr_reads lexicon.now names.now.names.now expr.now }
{
    match expr {
        Expr::Path(path) => front_reads(lexicon, names, path, path.rest.len() as u64),
        Expr::Literal(_) => 0,
    }
}

/// How many several read, and others before them.
pub fn all_reads(lexicon: &Lexicon, names: &ReadNames<'_>, exprs: &[Expr], total: u64) -> u64
    ensures { result ≡ all_reads lexicon.now names.now.names.now exprs.now total }
{
    let mut sum = total;
    for expr in exprs {
        sum = sum.saturating_add(expr_reads(lexicon, names, expr));
    }
    sum
}

fn is_class_stand(stand: Option<Stand>) -> bool
    ensures { result ≡ is_class_stand stand }
{
    match stand {
        Some(Stand::Class(_)) => true,
        _ => false,
    }
}

fn is_class_meaning(lexicon: &Lexicon, meaning: Option<Meaning>) -> bool
    ensures { result ≡ is_class_meaning lexicon.now meaning }
{
    match meaning {
        Some(Meaning::Scope(place)) => is_class_stand(file_stand(lexicon, place)),
        Some(Meaning::BuiltIn(_)) => true,
        _ => false,
    }
}

/// Whether the path begins with a class.
pub fn begins_with_class(lexicon: &Lexicon, names: &ReadNames<'_>, path: &Path) -> bool
    ensures { result ≡ begins_with_class lexicon.now names.now.names.now path.now }
{
    is_class_meaning(lexicon, names.meaning(path.first.at))
}
