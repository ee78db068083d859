//! First-order terms, substitutions and most general unifiers (Robinson, "A machine-oriented logic based on the
//! resolution principle", 1965): definitions and laws, with a plain solver among the definitions. Each function here
//! does nothing, and its contract is a law.
#![tactic(auto)]

ghost use Rattle.unifiers.specs.Term.{NoTermIsAPartOfItself};
ghost use Rattle.unifiers.specs.Unifier.{MostGeneralOneAfterAnother, SolutionsAreInstances, UniqueUpToRenaming};
ghost use Rattle.unifiers.specs.Solver.{NoneWhereNothingSolves, SolvedIsATest, SolutionIsMostGeneral};
ghost use Rattle.unifiers.specs.Reading.{MostGeneralAreInstances, ClosedIsOne, SchemeIsOne, SolverReadsTheSame};
ghost use Rattle.unifiers.specs.Renaming.{ListsNumberVariables, NumbersStay, RenamedHasNoneAlike, SolverReadsRenamed};
ghost use Rattle.unifiers.specs.Example.{WorkedExample};

/// No substitution makes a variable equal to a term that it stands in, unless it is that term.
pub fn no_term_is_a_part_of_itself()
    ensures { NoTermIsAPartOfItself }
{}

/// A most general unifier of what another one makes of some further pairs gives one of all the pairs.
pub fn one_after_another_is_most_general()
    ensures { MostGeneralOneAfterAnother }
{}

/// The solutions of some pairs are exactly the instances of a most general one, by substitutions that leave the rigid
/// variables alone.
pub fn solutions_are_instances()
    ensures { SolutionsAreInstances }
{}

/// Most general solutions of the same pairs differ in the names of variables alone.
pub fn unique_up_to_renaming()
    ensures { UniqueUpToRenaming }
{}

/// The solver gives nothing exactly where no substitution solves the pairs and leaves the rigid variables alone.
pub fn none_where_nothing_solves()
    ensures { NoneWhereNothingSolves }
{}

/// Whether some substitution solves the pairs is whether the solver gives one.
pub fn solved_is_a_test()
    ensures { SolvedIsATest }
{}

/// What the solver gives is a most general solution.
pub fn solution_is_most_general()
    ensures { SolutionIsMostGeneral }
{}

/// Two most general solutions of the same pairs are instances of each other.
pub fn most_general_are_instances()
    ensures { MostGeneralAreInstances }
{}

/// Two most general solutions give one kind, once what is free is closed.
pub fn closed_is_one()
    ensures { ClosedIsOne }
{}

/// Two most general solutions give one scheme.
pub fn scheme_is_one()
    ensures { SchemeIsOne }
{}

/// The kind and the scheme that any most general solution gives are those of the solver's solution.
pub fn solver_reads_the_same()
    ensures { SolverReadsTheSame }
{}

/// A list of distinct numbers gives each variable a number of its own.
pub fn lists_number_variables()
    ensures { ListsNumberVariables }
{}

/// Pairs that a list numbers are numbered alike by a longer one.
pub fn numbers_stay()
    ensures { NumbersStay }
{}

/// The solver gives nothing exactly where nothing solves the pairs over other numbers.
pub fn renamed_has_none_alike()
    ensures { RenamedHasNoneAlike }
{}

/// The kind and the scheme that a most general solution gives over other numbers are those of the solver's solution.
pub fn solver_reads_renamed()
    ensures { SolverReadsRenamed }
{}

/// Some pairs of kinds, solved by hand.
pub fn worked_example()
    ensures { WorkedExample }
{}
