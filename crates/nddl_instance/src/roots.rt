//! The tokens that a problem posts.

ghost use Rattle.std.specs.Prelude.{◌≡◌, ◌++◌, ◌∷◌, [], IfOk, OnOk, map};
ghost use Rattle.nddl_instance.specs.Outside.{outsides_of};
ghost use Rattle.nddl_instance.specs.Roots.{asked_root, posted_root, posted_roots, root_base, root_kind, root_of_wanted, root_with_base, root_wanted};

use super::outside::{Outside, front_stand};
use super::singles::single_set;
use eu_name::sequence::Sequence;
use model_core::item::Term;
use model_core::model::{Root, RootKind};
use model_core::variable::Base;
use nddl_ast::declaration::Decl;
use nddl_ast::name::Path;
use nddl_ast::statement::Ask;
use nddl_lower::slots::{Wanted, asked_names, class_base};
use nddl_symbols::declared::is_posting;
use nddl_terms::{Growth, Lexicon};
use std::alloc::{AllocError, Global};

// What has to become of a token that the word posts.
fn root_kind(word: &str) -> RootKind
    ensures { result ≡ root_kind word.now }
{
    if word == "fact" {
        RootKind::Fact
    } else if word == "rejectable" {
        RootKind::Rejectable
    } else {
        RootKind::Goal
    }
}

// The objects on which a token of the predicate may be.
fn root_base(
    alloc: Global,
    lexicon: &Lexicon,
    pred: u32,
    object: Option<Term>,
) -> Result<Base, AllocError>
    ensures { IfOk result (λ base. base ≡ root_base lexicon.now pred object) }
{
    match object {
        None => class_base(alloc, lexicon, lexicon.pred_class(pred)),
        Some(Term::Lit(value)) => Ok(Base::Given(single_set(alloc, value)?)),
        Some(_) => Ok(Base::Void),
    }
}

// The root of the predicate on these objects.
fn root_with_base(ask: &Ask, pred: u32, base: Base) -> Result<Option<Root>, AllocError>
    ensures { IfOk result (λ root. root ≡ root_with_base ask.now pred base) }
{
    let label = ask.label.text.copy()?;
    match base {
        Base::Given(object) => Ok(Some(Root {
            label,
            kind: root_kind(ask.word.text.as_str()),
            pred,
            object,
        })),
        Base::Void => Ok(None),
    }
}

// What the path asks for.
fn root_wanted(alloc: Global, outside: &Outside<'_>, path: &Path) -> Result<Wanted, AllocError>
    ensures { IfOk result (λ wanted. wanted ≡ root_wanted (outsides_of outside.now) path.now) }
{
    let begin = front_stand(outside, &path.first.text);
    let mut growth = Growth::new(alloc);
    asked_names(
        alloc,
        &outside.reading,
        begin,
        path.rest.as_slice(),
        &mut growth,
    )
}

// The root that is wanted.
fn root_of_wanted(
    alloc: Global,
    lexicon: &Lexicon,
    ask: &Ask,
    wanted: Wanted,
) -> Result<Option<Root>, AllocError>
    ensures { IfOk result (λ root. root ≡ root_of_wanted lexicon.now ask.now wanted) }
{
    match wanted.pred {
        Some(pred) => root_with_base(ask, pred, root_base(alloc, lexicon, pred, wanted.object)?),
        None => Ok(None),
    }
}

// The root that a word with a path and a label posts.
fn asked_root(alloc: Global, outside: &Outside<'_>, ask: &Ask) -> Result<Option<Root>, AllocError>
    ensures { IfOk result (λ root. root ≡ asked_root (outsides_of outside.now) ask.now) }
{
    if is_posting(ask.word.text.as_str()) {
        let wanted = root_wanted(alloc, outside, &ask.path)?;
        root_of_wanted(alloc, outside.reading.lexicon, ask, wanted)
    } else {
        Ok(None)
    }
}

// The root that the declaration posts.
fn posted_root(
    alloc: Global,
    outside: &Outside<'_>,
    decl: &Decl,
) -> Result<Option<Root>, AllocError>
    ensures { IfOk result (λ root. root ≡ posted_root (outsides_of outside.now) decl.now) }
{
    match decl {
        Decl::Ask(ask) => asked_root(alloc, outside, ask),
        _ => Ok(None),
    }
}

// Puts it behind the others, if there is one.
fn push_posted(
    alloc: Global,
    outside: &Outside<'_>,
    decl: &Decl,
    roots: &mut Sequence<Root>,
) -> Result<(), AllocError>
    ensures { OnOk result (roots.new ≡ roots.old ++ posted_roots (outsides_of outside.now) (decl.now ∷ [])) }
{
    match posted_root(alloc, outside, decl)? {
        Some(root) => roots.push(root),
        None => Ok(()),
    }
}

/// The roots, in order of posting.
pub fn posted_roots(
    alloc: Global,
    outside: &Outside<'_>,
    decls: &[&Decl],
) -> Result<Sequence<Root>, AllocError>
    ensures { IfOk result (λ roots. roots ≡ posted_roots (outsides_of outside.now) (map (λ decl. decl.now) decls.now)) }
{
    let mut roots = Sequence::new(alloc);
    for decl in decls {
        push_posted(alloc, outside, *decl, &mut roots)?;
    }
    Ok(roots)
}
