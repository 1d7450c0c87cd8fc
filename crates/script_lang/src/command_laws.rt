//! Laws of what commands ask for.

ghost use Rattle.script_lang.specs.CommandLaws.{AsksOneDecision, IsRefusedAsAsked, IsAdmittedAsAsked, IsStandingAsAsked};

/// A law: in a lawful model a command asks for one decision at most.
pub fn commands_ask_once()
    ensures { AsksOneDecision }
{}

/// A law: after a settled list a decision that stands for the one that was asked for is refused for the reasons for which that
/// one is. It is admissible, and one of the two stands in the list, only where it is that one.
pub fn decisions_stand_for_asked()
    ensures refused { IsRefusedAsAsked }
    ensures admitted { IsAdmittedAsAsked }
    ensures standing { IsStandingAsAsked }
{}
