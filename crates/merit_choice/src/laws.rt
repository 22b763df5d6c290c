// The laws of the choice of a step and of the merit order, over their definitions alone. Each is the contract of a function that does nothing.
ghost use Rattle.merit_choice.specs.InMerit.{InMeritRanks, OneMeritOrder, SameMeritOrder, PartCanBeRanked, PartInMerit, RankedInMerit, RankedPart, WithPersonRanks};
ghost use Rattle.merit_choice.specs.Laws.{OneChoice, ChoiceExists, ChoiceSize, RefusedStaysRefused, NoFewer, LeavingOutRefused, MoreSeats, NobodyPassedOver, HonoursAsAll, NoJustifiedEnvy, ByHand, MarksByHand, OneTooMany, SeatsForAll, RefusedBefore, OneByOne};

/// A step has at most one choice.
pub fn one_choice()
    ensures { OneChoice }
{}

/// A step has a choice.
pub fn choice_exists()
    ensures { ChoiceExists }
{}

/// A choice has as many persons as the smaller of the seats and the people.
pub fn choice_size()
    ensures { ChoiceSize }
{}

/// Who is not chosen from some people is not chosen from more.
pub fn refused_stays_refused()
    ensures { RefusedStaysRefused }
{}

/// From more people no fewer are chosen.
pub fn no_fewer()
    ensures { NoFewer }
{}

/// Without some people who were not chosen the choice is the same.
pub fn leaving_out_refused()
    ensures { LeavingOutRefused }
{}

/// Who is chosen stays chosen where there are more seats for the same protections.
pub fn more_seats()
    ensures { MoreSeats }
{}

/// States that a person is chosen who is better than one of the chosen and holds each trait of that one.
pub fn nobody_passed_over()
    ensures { NobodyPassedOver }
{}

/// A choice honours as many protections as all the people of the step would.
pub fn honours_as_all()
    ensures { HonoursAsAll }
{}

/// States that a person who is not chosen, and is better than one of the chosen, could replace that one only by
/// honouring fewer protections.
pub fn no_justified_envy()
    ensures { NoJustifiedEnvy }
{}

/// Down the merit order, mark who raises the number that those marked before honour; the marked and the best of the others are the choice.
pub fn by_hand()
    ensures { ByHand }
{}

/// The people of a step can be marked so.
pub fn marks_by_hand()
    ensures { MarksByHand }
{}

/// Of one person more than there are seats, the worst is left out without whom as many protections are honoured.
pub fn one_too_many()
    ensures { OneTooMany }
{}

/// Where there are seats for all, all are chosen.
pub fn seats_for_all()
    ensures { SeatsForAll }
{}

/// Without some people who were not chosen before, from fewer people, the choice is the same.
pub fn refused_before()
    ensures { RefusedBefore }
{}

/// States that a person who is held after people came one by one, in whatever order, is chosen from all who came.
pub fn one_by_one()
    ensures { OneByOne }
{}

/// People by merit are the same persons, each better than all who follow.
pub fn in_merit_ranks()
    ensures { InMeritRanks }
{}

/// States that persons can be put in merit order in one way alone.
pub fn one_merit_order()
    ensures { OneMeritOrder }
{}

/// States that the order by merit does not depend on the order in which the persons are given.
pub fn same_merit_order()
    ensures { SameMeritOrder }
{}

/// Some of the people can be put in merit order where all can.
pub fn part_can_be_ranked()
    ensures { PartCanBeRanked }
{}

/// Some of the people by merit are a part of all of them by merit.
pub fn part_in_merit()
    ensures { PartInMerit }
{}

/// People in merit order stay as they are.
pub fn ranked_in_merit()
    ensures { RankedInMerit }
{}

/// Of two lists in merit order, persons who are among the others are a part of them.
pub fn ranked_part()
    ensures { RankedPart }
{}

/// People in merit order with a new person are in merit order.
pub fn with_person_ranks()
    ensures { WithPersonRanks }
{}
