//! Laws of the words of the table: facts only, with no code.
ghost use Rattle.mk_core.specs.Layout.{NamesAreApart, IndexesAreOfTheTable, WordsStandAtTheirIndexes};
ghost use Rattle.mk_core.specs.Layout.{ChangesStandAtTheirIndexes, RegionsKeepTheirLengths, ListHasAllWords};
ghost use Rattle.mk_core.specs.Layout.{FirstWordsAreZero, AccessesStandAtTheirIndexes, LineGroupsAreApart};

/// Each word of the table has an index of its own. In the list of all words each is at its index, and a change of a
/// word changes only that place.
#[tactic(auto, using(crate::proofs::RegionLemmas::words_have_indexes_of_their_own_facts))]
pub fn words_have_indexes_of_their_own()
    ensures apart { NamesAreApart }
    ensures of_the_table { IndexesAreOfTheTable }
    ensures stand { WordsStandAtTheirIndexes }
    ensures changes { ChangesStandAtTheirIndexes }
    ensures lengths { RegionsKeepTheirLengths }
{}

/// The list of all words is as long as the table. At first all are 0. An access changes its word there as it changes a
/// word of the table.
#[tactic(auto, using(crate::proofs::RegionLemmas::words_are_one_list_facts))]
pub fn words_are_one_list()
    ensures count { ListHasAllWords }
    ensures first { FirstWordsAreZero }
    ensures accesses { AccessesStandAtTheirIndexes }
{}

/// Words of two groups, which different threads store to, have indexes that differ by 8 at least.
#[tactic(auto, using(crate::proofs::LayoutLemmas::groups_apart))]
pub fn line_groups_stand_apart()
    ensures { LineGroupsAreApart }
{}
