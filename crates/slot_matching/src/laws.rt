// Laws over the definitions alone, for the layers above: each is the contract of a function that does nothing.
ghost use Rattle.slot_matching.specs.Laws.{ExchangeLaw, ExtensionLaw, AnyOrderLaw, MonotoneLaw, OneStepLaw, OutsideLaw, DiminishingLaw, OneByOneLaw, TraitSetLaw};

/// Of two lists of people who can all be placed, the longer one has a person who joins the shorter one.
pub fn exchange()
    ensures { ExchangeLaw }
{}

/// Some people who can all be placed are inside a largest such part of all.
pub fn extension()
    ensures { ExtensionLaw }
{}

/// States that the order of the people does not matter.
pub fn any_order()
    ensures { AnyOrderLaw }
{}

/// Some of the people honour at most as much as all of them.
pub fn monotone()
    ensures { MonotoneLaw }
{}

/// One person more honours as much, or one more.
pub fn one_step()
    ensures { OneStepLaw }
{}

/// Each person who is left out honours at most one.
pub fn outside()
    ensures { OutsideLaw }
{}

/// Who raises the number of more people raises that of some of them.
pub fn diminishing_returns()
    ensures { DiminishingLaw }
{}

/// A matching that is offered people one by one has as many members as they honour.
pub fn one_by_one()
    ensures { OneByOneLaw }
{}

/// People can all be placed exactly where no set of traits is short of positions.
pub fn trait_sets()
    ensures { TraitSetLaw }
{}
