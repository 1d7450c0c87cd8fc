//! The names of members.

ghost use Rattle.std.specs.Prelude.{◌≡◌};
ghost use Rattle.std.specs.Option.{option_copied};
ghost use Rattle.nddl_hierarchy.specs.Inherited.{member_name};

use nddl_ast::declaration::Member;
use nddl_ast::name::Name;

/// The name of a field or of a predicate.
pub fn member_name(member: &Member) -> Option<&Name>
    ensures { option_copied result ≡ member_name member.now }
{
    match member {
        Member::Field(typed) => Some(&typed.name),
        Member::Predicate { name, .. } => Some(name),
        Member::Constructor { .. } => None,
    }
}
