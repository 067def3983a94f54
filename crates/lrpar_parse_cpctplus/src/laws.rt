//! Laws about the definitions that contracts cite: each function has one as its contract, and does nothing.
ghost use Rattle.lrpar_grammar.specs.Sentence.{LexemeFacts};
ghost use Rattle.lrpar_parse_cpctplus.specs.AnyForm.{CostNoLess, HaveRepairs};
ghost use Rattle.lrpar_parse_cpctplus.specs.Budget.{ListedAtFirstError, ListedWithinAreOne, ListedWithoutTotal, SharesAreWithin};
ghost use Rattle.lrpar_parse_cpctplus.specs.LinkPaths.{EndsHaveRepairs, LastStepsAreLinks, LeastCostByLastSteps, RepairsArePaths};
ghost use Rattle.lrpar_parse_cpctplus.specs.Listing.{ListedAreOne, ListedInOrder};

/// The form of repairs leaves out nothing that is cheaper: for each sequence that works at an error point, whatever the order of
/// its steps, there is a repair that costs no more; so none costs less than the cheapest repair.
pub fn no_sequence_is_cheaper_than_repairs<LexemeT>()
    ensures repairs { HaveRepairs LexemeT }
    ensures least { CostNoLess LexemeT }
    ensures facts_repairs { HaveRepairs LexemeFacts }
    ensures facts_least { CostNoLess LexemeFacts }
{}

/// At an error point there is one answer: what is listed is one list, as of two repairs one is listed before the other. So it is with a
/// budget, as the limit at an error point is one number.
pub fn cheapest_repairs_have_one_answer<LexemeT>()
    ensures one { ListedAreOne LexemeT }
    ensures within { ListedWithinAreOne LexemeT }
    ensures order { ListedInOrder LexemeT }
    ensures facts_one { ListedAreOne LexemeFacts }
    ensures facts_within { ListedWithinAreOne LexemeFacts }
    ensures facts_order { ListedInOrder LexemeFacts }
{}

/// The searches of a parse keep no more configurations than its budget: errors come at places that ascend, and whichever these are, from
/// the first error on, their shares are together at most the total.
pub fn shares_are_within_the_total()
    ensures { SharesAreWithin }
{}

/// Without a budget each error has the repairs that the limit allows to find; so has the first error of a parse with a budget, if its
/// total isn't below the limit.
pub fn first_error_has_the_limit<LexemeT>()
    ensures first { ListedAtFirstError LexemeT }
    ensures without { ListedWithoutTotal LexemeT }
    ensures facts_first { ListedAtFirstError LexemeFacts }
    ensures facts_without { ListedWithoutTotal LexemeFacts }
{}

/// The repairs of least cost are the well-formed chains of links from the error point to an end, and each end is that of a repair. So
/// a search may keep each stack and place once, however many sequences lead to it.
pub fn cheapest_repairs_are_paths<LexemeT>()
    ensures repairs { RepairsArePaths LexemeT }
    ensures ends { EndsHaveRepairs LexemeT }
    ensures facts_repairs { RepairsArePaths LexemeFacts }
    ensures facts_ends { EndsHaveRepairs LexemeFacts }
{}

/// The least cost of a repair is the least one at which a step other than a Shift leads to where a parse can go on; and these steps
/// are the links of the ends.
pub fn last_steps_give_the_least_cost<LexemeT>()
    ensures least { LeastCostByLastSteps LexemeT }
    ensures links { LastStepsAreLinks LexemeT }
    ensures facts_least { LeastCostByLastSteps LexemeFacts }
    ensures facts_links { LastStepsAreLinks LexemeFacts }
{}
