//! Laws of the definitions of arithmetic, ranges, keys, calls, open iterations, dialects, orders and sets.

ghost use Rattle.star_laws.specs.Calls.{BoundWhereTheyFit, GivenNamesDiffer};
ghost use Rattle.star_laws.specs.Dialects.{CoreCallsItsOwn, CoreHasItsMethods, ExtendedHasThem};
ghost use Rattle.star_laws.specs.Division.{OneQuotient, QuotientAndRemainder};
ghost use Rattle.star_laws.specs.Iterations.{FilesBeginWithNoLoop, LoopsAreCounted, OpenIterationsAreOpenLoops, RunsEndTheirLoops};
ghost use Rattle.star_laws.specs.Keys.{EqualKeysAreTheSame, KeysHaveEquality};
ghost use Rattle.star_laws.specs.Orders.{CoreHasNoKeys, SortingKeepsTheItems};
ghost use Rattle.star_laws.specs.Ranges.{RangesHaveTheirItems, RangesStepToTheirStop, SameRangesHaveTheSameItems};
ghost use Rattle.star_laws.specs.Sets.{MergedSetsDiffer, MergedSetsHold};
ghost use Rattle.star_laws.specs.BoundArguments.{BoundAsGiven};

/// An int is its quotient by a divisor other than 0, times the divisor, plus the remainder. The remainder is between 0
/// and the divisor, 0 included and the divisor not, so it has the divisor's sign or is 0. (`docs/LANGUAGE.md`,
/// "Values": "Ints".)
pub fn quotient_and_remainder()
    ensures { QuotientAndRemainder }
{}

/// No other quotient and remainder do so. (`docs/LANGUAGE.md`, "Values": "Ints".)
pub fn one_quotient()
    ensures { OneQuotient }
{}

/// The items of a range are `start + i * step`, for each `i` from 0 on, as long as they come before the stop. They come
/// before it if they are below it and the step is above 0, or above it and the step is below 0. (`docs/LANGUAGE.md`,
/// "Iterables".)
pub fn ranges_step_to_their_stop()
    ensures { RangesStepToTheirStop }
{}

/// An int is in a range exactly if it is one of the range's items. (`docs/LANGUAGE.md`, "Operators".)
pub fn ranges_have_their_items()
    ensures { RangesHaveTheirItems }
{}

/// Two ranges are equal exactly if at each index both have the same item, or neither has one. (`docs/LANGUAGE.md`,
/// "Equality, order, keys and texts".)
pub fn same_ranges_have_the_same_items()
    ensures { SameRangesHaveTheSameItems }
{}

/// If one of two values is a key, at any depth, and equality answers, it answers whether they are the same key. Without
/// a key the law does not hold: two lists may be equal, and are not keys. (`docs/LANGUAGE.md`, "Equality, order, keys
/// and texts".)
pub fn equal_keys_are_the_same()
    ensures { EqualKeysAreTheSame }
{}

/// Equality has a price if one of two values is a key and equality may open as many levels as this key has. With fewer
/// steps it is refused for want of steps. With these steps or more it returns whether the values are the same key, and
/// leaves the other steps. (`docs/LANGUAGE.md`, "Steps and levels".)
pub fn keys_have_equality()
    ensures { KeysHaveEquality }
{}

/// The arguments of a call are bound to the parameters (whose defaults are there) under exactly three conditions. Each
/// parameter without a default gets a positional or a keyword argument. No parameter gets both, and no argument of
/// either kind is left over. (`docs/LANGUAGE.md`, "Calls".)
pub fn bound_where_they_fit()
    ensures { BoundWhereTheyFit }
{}

/// No two keyword arguments of a call have the same name, the written ones and those from `**` taken together.
/// (`docs/LANGUAGE.md`, "Calls".)
pub fn given_names_differ()
    ensures { GivenNamesDiffer }
{}

/// If arguments are bound, each parameter but a bare `*` gets its own, in order. A parameter of one value gets the next
/// positional argument, if it comes before a star and one is left, else the keyword argument of its name, else its
/// default. `*name` gets the positional arguments that are left, and `**name` the keyword arguments that name no
/// parameter. (`docs/LANGUAGE.md`, "Calls".)
pub fn bound_as_given()
    ensures { BoundAsGiven }
{}

/// As a file begins, no loop is open, and the counters of open iterations are right for that. (`docs/LANGUAGE.md`,
/// "Iterables".)
pub fn files_begin_with_no_loop()
    ensures { FilesBeginWithNoLoop }
{}

/// The counters of open iterations are right for the loops that are open if each list, dictionary and set of the module
/// has as many as loops go over it, and no other cell has any. If they are right before an expression or a statement
/// that ends well, they are right after it, with all that it called, made and looped over. (`docs/LANGUAGE.md`,
/// "Iterables".)
pub fn runs_end_their_loops()
    ensures { RunsEndTheirLoops }
{}

/// If the counters are right, they are right with one more open loop as a loop begins over a value, and with one less
/// as it ends. (`docs/LANGUAGE.md`, "Iterables".)
pub fn loops_are_counted()
    ensures { LoopsAreCounted }
{}

/// The rules of writing ask for the open iterations of a list, a dictionary or a set. These are the open loops over it.
/// (`docs/LANGUAGE.md`, "Values".)
pub fn open_iterations_are_open_loops()
    ensures { OpenIterationsAreOpenLoops }
{}

/// In the core language a value has the methods of the core, and no others. (`docs/LANGUAGE.md`, "Extended".)
pub fn core_has_its_methods()
    ensures { CoreHasItsMethods }
{}

/// A method of the core has its name in the extended language, too: no method of that language takes it.
/// (`docs/LANGUAGE.md`, "Extended".)
pub fn extended_has_them()
    ensures { ExtendedHasThem }
{}

/// In the core language `split`, `startswith` and `endswith`, which take more in the extended one, do what they do
/// without it. (`docs/LANGUAGE.md`, "Extended".)
pub fn core_calls_its_own()
    ensures { CoreCallsItsOwn }
{}

/// Items that are sorted by their keys, in the extended language, are the items, each beside its key and as often as
/// before. (`docs/LANGUAGE.md`, "Extended": "Orders".)
pub fn sorting_keeps_the_items()
    ensures { SortingKeepsTheItems }
{}

/// In the core language a call with `key` is a plain call: no function of `key` is called. (`docs/LANGUAGE.md`,
/// "Extended": "Orders".)
pub fn core_has_no_keys()
    ensures { CoreHasNoKeys }
{}

/// A value is in the union of a set with others if it is in one of them; in the intersection, if it is in the set and in
/// each of the others; in the difference, if it is in the set and in none of the others; in the symmetric difference, if
/// it is in the set or in the others, and not in both. (`docs/LANGUAGE.md`, "Extended": "Sets".)
pub fn merged_sets_hold()
    ensures { MergedSetsHold }
{}

/// If no element of a set is there twice, none is in what the set is merged to. (`docs/LANGUAGE.md`, "Extended": "Sets".)
pub fn merged_sets_differ()
    ensures { MergedSetsDiffer }
{}
