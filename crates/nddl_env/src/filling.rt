//! The lexicon of a program.

ghost use Rattle.std.specs.Prelude.{◌≡◌, [], IfOk, OnOk};
ghost use Rattle.nddl_env.specs.Lexicons.{lexicon_of, pred_shapes};
ghost use Rattle.nddl_env.specs.Shapes.{world_of};

use super::classes::class_shapes;
use super::ending::{put_made, when};
use super::names::scope_stands;
use super::predicates::pred_shapes;
use super::premises::Premises;
use super::types::scope_types;
use eu_name::sequence::Sequence;
use nddl_terms::lexicon::Lexicon;
use nddl_terms::{Populations, PredShapes, TypeShapes};
use std::alloc::{AllocError, Global};

// A lexicon of nothing.
fn nothing(alloc: Global) -> Lexicon
    ensures { result ≡ record { classes = []; populations = []; preds = []; scope = []; types = [] } }
{
    Lexicon {
        classes: Sequence::new(alloc),
        populations: Populations::new(Vec::new(alloc), Vec::new(alloc)),
        preds: PredShapes::new(alloc),
        scope: Sequence::new(alloc),
        types: TypeShapes::new(alloc),
    }
}

// All predicates, with an index of those of each class.
fn indexed_preds(alloc: Global, premises: &Premises<'_>) -> Result<PredShapes, AllocError>
    ensures { IfOk result (λ preds. preds ≡ pred_shapes (world_of premises.now)) }
{
    let classes = premises.sources.entries.len().saturating_add(4);
    PredShapes::of(alloc, classes, pred_shapes(alloc, premises)?)
}

// Fills the lexicon.
fn fill(alloc: Global, premises: &Premises<'_>, lexicon: &mut Lexicon) -> Result<(), AllocError>
    ensures { OnOk result (lexicon.new ≡ lexicon_of (world_of premises.now)) }
{
    put_made(indexed_preds(alloc, premises), &mut lexicon.preds)?;
    put_made(scope_stands(alloc, premises, &*lexicon), &mut lexicon.scope)?;
    put_made(class_shapes(alloc, premises), &mut lexicon.classes)?;
    put_made(premises.by_class.copy(alloc), &mut lexicon.populations)?;
    put_made(scope_types(alloc, premises), &mut lexicon.types)
}

/// What is known of the program where its rules are unrolled.
pub fn lexicon(alloc: Global, premises: &Premises<'_>) -> Result<Lexicon, AllocError>
    ensures { IfOk result (λ lexicon. lexicon ≡ lexicon_of (world_of premises.now)) }
{
    let mut lexicon = nothing(alloc);
    let done = fill(alloc, premises, &mut lexicon);
    when(done, lexicon)
}
