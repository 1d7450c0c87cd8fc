//! What is kept of each token, and the trail of what was changed.

ghost use Rattle.std.specs.Prelude.{◌≡◌, ◌<◌, ◌++◌, ◌∷◌, [], length};
ghost use Rattle.token_store.specs.Tokens.{FindsToken, IsNewName, with_state};
ghost use Rattle.indexmap.specs.IndexMap.{spare};

use eu_name::laws::names_are_told_apart;
use eu_name::name::TokenName;
use indexmap::IndexMap;
use model_core::view::TokenState;

/// What is kept of a token beside its name.
#[derive(Clone, Copy)]
pub struct Token {
    pub pred: u32,
    pub state: TokenState,
}

/// One change, with what going back over it needs.
#[derive(Clone, Copy)]
pub enum Edit {
    /// A token was added.
    Added,
    /// The token at the place had this state.
    Was { place: u32, state: TokenState },
}

/// The place of the token of this name.
pub fn find_place(tokens: &IndexMap<TokenName, Token>, name: &TokenName) -> Option<usize>
    ensures { FindsToken tokens.now.entries name.now result }
{
    names_are_told_apart();
    tokens.get_index_of(name)
}

/// Gives the token at the place a state.
pub fn put_state(tokens: &mut IndexMap<TokenName, Token>, place: usize, state: TokenState)
    requires { place < length tokens.old.entries }
    ensures { tokens.new.entries ≡ with_state tokens.old.entries place state }
{
    tokens[place].state = state;
}

/// Puts a token of a new name behind the others, for which there is room.
pub fn put_token(tokens: &mut IndexMap<TokenName, Token>, name: TokenName, token: Token)
    requires new { IsNewName tokens.old.entries name }
    requires room { 0 < spare tokens.old }
    ensures { tokens.new.entries ≡ tokens.old.entries ++ (name, token) ∷ [] }
{
    names_are_told_apart();
    match tokens.insert(name, token) {
        Ok(_none) => {}
        Err(_full) => unreachable!(),
    }
}
