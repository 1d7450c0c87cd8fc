//! Laws of what is posted.

ghost use Rattle.db_posting.specs.PostingLaws.{WhatCountsIsSaid, LawfulTermsCanStand, LawfulItemsCanBePosted};
ghost use Rattle.db_posting.specs.PostingLaws.{ArgumentsCanBePosted, WhatIsThereIsNamed, ItemsOfProblemAreNamed};
ghost use Rattle.db_posting.specs.PostingLaws.{KeysAreNamed, NamedTermsAreThere};

/// A law: an item says what it asserts exactly where all that it is about counts.
pub fn what_counts_is_said()
    ensures { WhatCountsIsSaid }
{}

/// A law: a lawful item can be posted, and each lawful term is an argument.
pub fn lawful_items_can_be_posted()
    ensures terms { LawfulTermsCanStand }
    ensures items { LawfulItemsCanBePosted }
{}

/// A law: what a decision may post can be posted.
pub fn arguments_can_be_posted()
    ensures { ArgumentsCanBePosted }
{}

/// A law: the variables of an item are there where what it is about is.
pub fn what_is_there_is_named()
    ensures rule { WhatIsThereIsNamed }
    ensures problem { ItemsOfProblemAreNamed }
{}

/// A law: a variable is there by its name where its key is, and so is a term that means it.
pub fn keys_are_named()
    ensures keys { KeysAreNamed }
    ensures terms { NamedTermsAreThere }
{}
