//! The rule that takes flaws in their stated order.

use super::counting::are_active;
use super::flaw::Flaw;
use super::rule::FlawRule;
use super::{choosing, first};
use model_core::decision::Decision;
use model_core::model::Model;
use model_core::view::View;
use std::alloc::AllocError;

/// First the tokens of which nothing is decided, then values, then pairs of tokens of one timeline, and at last times; and of one
/// sort the one of the least name.
#[derive(Clone, Copy)]
pub struct Plain;

impl FlawRule for Plain {
    ghost use Rattle.flaw_core.specs.Rules.{IsFirstAt, AreChoicesAt};
    ghost use Rattle.flaw_core.specs.PlainLaws.{plain_admits, plain_covers};

    ghost is_first = { λ it model decisions state flaw. IsFirstAt model decisions state flaw };

    ghost are_choices = { λ it model decisions state bound flaw choices. AreChoicesAt model decisions state bound flaw choices };

    ghost clears = { λ it model decisions state least clear. clear };

    ghost admits = { λ it model decisions state bound flaw choices choice. plain_admits model decisions state bound flaw choices choice };

    ghost covers = { λ it model decisions state bound flaw choices plan. plain_covers model decisions state bound flaw choices plan };

    fn first_flaw<V: View>(&self, model: &Model, view: &V, _bound: u32) -> Option<Flaw> {
        first::first_flaw(model, view)
    }

    fn choice<V: View>(
        &self,
        model: &Model,
        view: &V,
        flaw: &Flaw,
        number: u32,
        bound: u32,
    ) -> Result<Option<Decision>, AllocError> {
        choosing::choose(model, view, *flaw, number, bound)
    }

    fn left_out<V: View>(&self, view: &V, flaw: &Flaw, bound: u32) -> bool {
        match *flaw {
            Flaw::Token(_) => are_active(view, bound),
            Flaw::Value(_) => false,
            Flaw::Pair(_, _) => false,
            Flaw::Time(_) => false,
        }
    }
}
