//! What rules, facts and questions mean: worlds, the exclusion closure, clashes, what follows, and which rows are true of a question.
//! The contract of each function is a theorem about the definitions in specs/.

#![tactic(auto)]

ghost use Rattle.theory.specs.Results.{BlameFound, CertainAnswers, ClashesTell, ExclusionsDecided, ExclusionsHold, FamiliesLawful, FollowsTells, NumbersBelow, SafeKept, StepsKeepTruth, TidyingKeepsTruth, TidyingRests};

/// The pairs of the exclusion closure are disjoint in every world that keeps the rules.
pub fn exclusions_hold() -> bool
    ensures { ExclusionsHold }
{
    true
}

/// Whether a pair is in the exclusion closure is decided.
pub fn exclusions_decided() -> bool
    ensures { ExclusionsDecided }
{
    true
}

/// The rules of a book of either family are lawful.
pub fn families_lawful() -> bool
    ensures { FamiliesLawful }
{
    true
}

/// Facts have a world that keeps the rules exactly if no two of them clash.
pub fn clashes_tell() -> bool
    ensures { ClashesTell }
{
    true
}

/// Of facts without a world, one or two are to blame.
pub fn blame_found() -> bool
    ensures { BlameFound }
{
    true
}

/// Which rules hold in every world that keeps the rules.
pub fn follows_tells() -> bool
    ensures { FollowsTells }
{
    true
}

/// The rounds of tidying come to rest, and always at the same question.
pub fn tidying_rests() -> bool
    ensures { TidyingRests }
{
    true
}

/// Tidying a question changes no row's truth.
pub fn tidying_keeps_truth() -> bool
    ensures { TidyingKeepsTruth }
{
    true
}

/// Tidying numbers variables below the count of the different ones.
pub fn numbers_below() -> bool
    ensures { NumbersBelow }
{
    true
}

/// What is true of the result of a rewriting step is true of the question before it.
pub fn steps_keep_truth() -> bool
    ensures { StepsKeepTruth }
{
    true
}

/// The rows that are true in every world of the site are those that the rewritings find in the facts.
pub fn certain_answers() -> bool
    ensures { CertainAnswers }
{
    true
}

/// Every rewriting of a safe question is safe.
pub fn safe_kept() -> bool
    ensures { SafeKept }
{
    true
}
