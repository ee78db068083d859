//! Laws of what follows from given constraints.
ghost use Rattle.class_env.specs.EntailLaws as laws;

/// What is given gives the superclasses of its class.
pub fn supers_of_given_follow()
    ensures { laws.SupersOfGivenFollow }
{}

/// At a type that a variable heads, all that follows gives the superclasses of its class.
pub fn supers_follow_at_variables()
    ensures { laws.SupersFollowAtVariables }
{}

/// A class at a type follows where the context of its one instance does.
pub fn instances_follow()
    ensures { laws.InstancesFollow }
{}

/// More that is given gives more, and what others give over superclasses may be left out.
pub fn more_follows_from_more()
    ensures { laws.MoreFollowsFromMore }
{}

/// What follows from constraints that follow, each at a type that a variable heads, follows.
pub fn following_is_transitive()
    ensures { laws.FollowingIsTransitive }
{}

/// A constraint with a result follows from what is left of it.
pub fn reduced_follows()
    ensures { laws.ReducedFollows }
{}

/// From constraints on variables just that follows which reduces to what they give.
pub fn reducing_decides()
    ensures { laws.ReducingDecides }
{}

/// Nothing is read but the superclasses of what given constraints give, and the instances of the pairs that are needed.
pub fn entailment_reads_no_more()
    ensures { laws.EntailmentReadsNoMore }
{}

/// From constraints on variables, no pairs are read but those that reducing meets.
pub fn pairs_met_decide()
    ensures { laws.PairsMetDecide }
{}
