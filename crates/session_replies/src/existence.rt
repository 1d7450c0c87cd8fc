//! Laws: what is there has a line.

ghost use Rattle.session_replies.specs.Existence.{DomainsHaveLines, TokensHaveLines, DecisionsHaveLines, EdgesHaveLines, FlawsHaveLines};

/// A variable of a state has a line with its domain, and a token one with what has become of it.
pub fn states_have_lines()
    ensures domains { DomainsHaveLines }
    ensures tokens { TokensHaveLines }
{}

/// A decision, a time edge and a flaw that can be written have lines.
pub fn decisions_have_lines()
    ensures decisions { DecisionsHaveLines }
    ensures edges { EdgesHaveLines }
    ensures flaws { FlawsHaveLines }
{}
