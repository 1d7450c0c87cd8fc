//! The names of variables as text.

ghost use Rattle.std.specs.Prelude.{◌≡◌, ℕ, List, Some, IfOk, slice_get};
ghost use Rattle.eu_name.specs.declared.name.VarName.TheVariants.{Global};
ghost use Rattle.model_core.specs.declared.model.Root.{Root};
ghost use Rattle.model_core.specs.declared.rule.Slot.{Slot};
ghost use Rattle.model_core.specs.declared.variable.Base.{Base};
ghost use Rattle.model_core.specs.declared.variable.VarDecl.{VarDecl};
ghost use Rattle.model_core.specs.Names.{LeadsToToken, NamesVariable, IsPartWord};
ghost use Rattle.model_core.specs.Tokens.{HasToken, IsRoot};
ghost use Rattle.model_core.specs.Variables.{HasBase};

use super::model::Model;
use eu_name::name::{Part, TokenName, VarName};
use eu_name::name_text::{NameText, Tail};
use eu_name::sequence::Sequence;
use eu_name::text::Text;
use std::alloc::AllocError;

impl Model {
    /// The text that names the variable. As every text that names something in a lawful model it is well-formed there (`texts_are_well_formed`), so it can be written and read back.
    pub fn var_text(&self, variable: &VarName) -> Result<NameText, AllocError>
        requires { (base : Base) × HasBase self.now variable.now base }
        ensures { IfOk result (λ text. NamesVariable self.now text variable.now) }
    {
        match variable {
            VarName::Global(number) => self.global_text(*number),
            VarName::Token(token, part) => {
                let word = self.part_word(self.pred_of(token), *part)?;
                self.token_text(token, Tail::Part(word))
            }
            VarName::Local {
                token,
                rule,
                number,
            } => self.token_text(
                token,
                Tail::Local {
                    rule: *rule,
                    number: *number,
                },
            ),
        }
    }

    /// The number of the predicate of a token that the model has.
    pub fn pred_of(&self, token: &TokenName) -> u32
        requires { (slot : Slot) × HasToken self.now token.now slot }
        ensures { (slot : Slot) → HasToken self.now token.now slot → slot.pred ≡ result }
    {
        let root = &self.problem.roots.as_slice()[token.root as usize];
        match self.pred_after(root.pred, token.steps.as_slice()) {
            Some(pred) => pred,
            None => unreachable!(),
        }
    }

    // The word for the part of a token of this predicate.
    fn part_word(&self, pred: u32, part: Part) -> Result<Text, AllocError>
        requires { (word : List ℕ) × IsPartWord self.now pred part word }
        ensures { IfOk result (λ word. IsPartWord self.now pred part word) }
    {
        let alloc = self.preds.allocator();
        match part {
            Part::Start => Text::from_str(alloc, "start"),
            Part::End => Text::from_str(alloc, "end"),
            Part::Duration => Text::from_str(alloc, "duration"),
            Part::Object => Text::from_str(alloc, "object"),
            Part::Param(number) => {
                let pred = &self.preds.as_slice()[pred as usize];
                pred.params.as_slice()[usize::from(number)].name.copy()
            }
        }
    }

    // The text of a global variable that the model has.
    fn global_text(&self, number: u32) -> Result<NameText, AllocError>
        requires { (variable : VarDecl) × (slice_get self.now.problem.globals number ≡ Some variable) }
        ensures { IfOk result (λ text. NamesVariable self.now text (Global number)) }
    {
        let variable = &self.problem.globals.as_slice()[number as usize];
        Ok(NameText {
            label: variable.name.copy()?,
            steps: Sequence::new(self.problem.globals.allocator()),
            tail: Tail::None,
        })
    }

    // The text that leads to a token that the model has, and goes on with the tail.
    fn token_text(&self, token: &TokenName, tail: Tail) -> Result<NameText, AllocError>
        requires { (root : Root) × IsRoot self.now token.now.root root }
        ensures leads { IfOk result (λ text. (slot : Slot)
            → HasToken self.now token.now slot → LeadsToToken self.now text token.now slot) }
        ensures tail { IfOk result (λ text. text.tail ≡ tail) }
    {
        let root = &self.problem.roots.as_slice()[token.root as usize];
        let TokenName { steps, .. } = token.copy()?;
        Ok(NameText {
            label: root.label.copy()?,
            steps,
            tail,
        })
    }
}
