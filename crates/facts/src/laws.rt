ghost use Rattle.facts.specs.Laws.{BytesBack, CommonMembers, DifferenceMembers, Equal, Extensional, InsertMembers, InsertPast, NoneFrom, NoneGives, SizeCounts, SubsetFrom, SubsetGives, UnionMembers, WordsBack};

use crate::set::FactSet;

// The laws of sets, for any number of words: specs/Laws.antt has them.
pub fn sets_are_lawful()
    ensures union { UnionMembers }
    ensures difference { DifferenceMembers }
    ensures common { CommonMembers }
    ensures insert { InsertMembers }
    ensures insert_past { InsertPast }
    ensures subset_gives { SubsetGives }
    ensures subset_from { SubsetFrom }
    ensures none_gives { NoneGives }
    ensures none_from { NoneFrom }
    ensures extensional { Extensional }
    ensures size_counts { SizeCounts }
    ensures equal { Equal ⟦<FactSet as PartialEq>⟧.eq }
    ensures words_back { WordsBack }
    ensures bytes_back { BytesBack }
{}
