//! What readers of a database see of its state, without its representation.

ghost use Rattle.std.specs.Prelude.{◌≡◌, ◌↔◌, ◌≤◌, List, length, IsTrue, MatchOption, slice_get, option_copied};
ghost use Rattle.eu_name.specs.declared.name.TokenName.{TokenName};
ghost use Rattle.eu_name.specs.declared.name.VarName.TheVariants.{Token, Local};
ghost use Rattle.model_core.specs.declared.decision.Decision.{Decision};
ghost use Rattle.model_core.specs.declared.model.Model.{Model};
ghost use Rattle.model_core.specs.State.{State};
ghost use Rattle.model_core.specs.TokenStates.{HasTokenState};
ghost use Rattle.model_core.specs.Views.{IsTokenAt, IsDomainIn, IsDomainAt, IsOrderedAt};

use domain_core::domain::Dom;
use eu_name::name::{Part, TokenName, VarName};

/// What has become of a token.
#[derive(Clone, Copy)]
pub enum TokenState {
    /// Nothing is decided of it yet.
    Inactive,
    /// It takes place.
    Active,
    /// It takes place, whatever is decided.
    Fact,
    /// It is the token at this place.
    Merged(u32),
    /// It doesn't take place.
    Rejected,
}

/// A state of a model, with the decisions that it comes of. Tokens are told by their places in the state, which are those of their order. No call takes memory.
pub trait View {
    ghost model: { Self → Model };

    ghost state: { Self → State };

    ghost decisions: { Self → List Decision };

    /// How many tokens there are.
    fn count(&self) -> u32
        ensures { result ≡ length (state self.now).tokens };

    /// The token at this place.
    fn token_at(&self, place: u32) -> Option<&TokenName>
        ensures { option_copied result ≡ slice_get (state self.now).tokens place };

    /// What has become of the token at this place.
    fn state_at(&self, place: u32) -> Option<TokenState>
        ensures { MatchOption result
            (length (state self.now).tokens ≤ place)
            (λ found. (token : TokenName) × IsTokenAt (state self.now) place token
            × HasTokenState (model self.now) (state self.now) (decisions self.now) token found) };

    /// The domain of the variable.
    fn domain(&self, variable: &VarName) -> Option<&Dom>
        ensures { IsDomainIn (state self.now) variable.now (option_copied result) };

    /// The domain of this part of the token at this place.
    fn domain_at(&self, place: u32, part: Part) -> Option<&Dom>
        ensures { IsDomainAt (state self.now) place (λ token. Token token part) (option_copied result) };

    /// The domain of a local of the token at this place, by the numbers of the rule and of the local.
    fn local_at(&self, place: u32, rule: u16, number: u16) -> Option<&Dom>
        ensures { IsDomainAt (state self.now) place
            (λ token. Local token rule number) (option_copied result) };

    /// Whether the decisions put the token at the first place before the one at the second.
    fn ordered(&self, first: u32, second: u32) -> bool
        ensures { IsTrue result
            ↔ IsOrderedAt (state self.now) (decisions self.now) first second };
}
