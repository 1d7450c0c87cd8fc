//! What stands in the open blocks of the rule that was asked for last.

ghost use Rattle.std.specs.Prelude.{◌≡◌, ◌↔◌, Some, IsTrue};
ghost use Rattle.model_core.specs.declared.model.Model.{Model};
ghost use Rattle.model_core.specs.Lawful.{IsLawful};
ghost use Rattle.plan_defs.specs.declared.plan.Plan.{Plan};
ghost use Rattle.plan_defs.specs.Valid.{IsActivatedAt};
ghost use Rattle.plan_values.specs.Keys.{IsOrderly};
ghost use Rattle.plan_inventory.specs.Marking.{MarksRule};
ghost use Rattle.plan_inventory.specs.Recalling.{Recalls};

use super::marks::Marks;
use super::standing::marks_of;
use eu_name::name::TokenName;
use model_core::model::Model;
use plan_defs::plan::Plan;

/// A token that takes place, and the place of its line.
#[derive(Clone, Copy)]
pub struct Found<'a> {
    pub place: usize,
    pub token: &'a TokenName,
}

/// What stands in the open blocks of a rule of the token that takes place by this line.
///
/// Lines that one rule asks for stand next to each other, so the walk over its blocks serves them all.
#[derive(Drop)]
pub struct Recalled {
    place: Option<usize>,
    rule: u16,
    pub marks: Marks,
}

impl Recalled {
    /// Nothing was asked for yet.
    pub fn new() -> Recalled
        ensures { (model : Model) (plan : Plan) → Recalls model plan result }
    {
        Recalled {
            place: None,
            rule: 0,
            marks: Marks::new(),
        }
    }

    // Whether it is of this rule of the token that takes place by this line.
    fn is_of(&self, place: usize, rule: u16) -> bool
        ensures { IsTrue result ↔ ((self.now.place ≡ Some place) × (self.now.rule ≡ rule)) }
    {
        self.place == Some(place) && self.rule == rule
    }

    /// Asks for the token's rule of this number. Where it was asked for last, nothing is to be done.
    pub fn ask(&mut self, model: &Model, plan: &Plan, found: Found, rule: u16)
        requires lawful { IsLawful model.now }
        requires orderly { IsOrderly plan.now }
        requires activated { IsActivatedAt plan.now found.place found.token.now }
        requires recalls { Recalls model.now plan.now self.old }
        ensures recalls { Recalls model.now plan.now self.new }
        ensures marks { MarksRule model.now plan.now found.entry.token.now rule self.new.marks }
    {
        if !self.is_of(found.place, rule) {
            self.place = Some(found.place);
            self.rule = rule;
            self.marks = marks_of(model, plan, found.token, rule);
        }
    }
}
