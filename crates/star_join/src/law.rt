//! Laws: the report for more roots is the join of reports.

ghost use Rattle.star_join.specs.Answers.{AnswersJoin};
ghost use Rattle.star_join.specs.Laws.{JoinsCount, JoinsGroup, JoinsJoin, JoinsRepeat, JoinsTurn};
ghost use Rattle.star_join.specs.Laws.{OneJoin, RootsAreASet, RootsGrow, RootsJoin, RootsReach};
ghost use Rattle.star_join.specs.Texts.{TextsJoin};

/// The join of two rows in order that agree has what they have, in order.
pub fn joins_join()
    ensures { JoinsJoin }
{}

/// Two rows have at most one join.
pub fn one_join()
    ensures { OneJoin }
{}

/// A row joined with itself is that row.
pub fn joins_repeat()
    ensures { JoinsRepeat }
{}

/// Two rows may be joined in either order.
pub fn joins_turn()
    ensures { JoinsTurn }
{}

/// Three rows may be joined in any grouping.
pub fn joins_group()
    ensures { JoinsGroup }
{}

/// A join has as many as both rows, less those that they share.
pub fn joins_count()
    ensures { JoinsCount }
{}

/// A plan with the roots of two others reaches what they reach.
pub fn roots_reach()
    ensures { RootsReach }
{}

/// The report for the roots of two reports is their join, and as many files are begun as the join has modules.
pub fn roots_join()
    ensures { RootsJoin }
{}

/// The text for the roots of two reports has and shows the join of what they have and show, with all further members.
pub fn texts_join()
    ensures { TextsJoin }
{}

/// Each module of the report for some roots is in each report for more roots, as it is.
pub fn roots_grow()
    ensures { RootsGrow }
{}

/// The report depends on the set of the roots alone: not on their order, nor on how often one is named.
pub fn roots_are_a_set()
    ensures { RootsAreASet }
{}

/// The answer for the roots of two reports is that all is good in both.
pub fn answers_join()
    ensures { AnswersJoin }
{}
