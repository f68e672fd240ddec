//! Each thing that may be wrong with a draft is told.

use crate::draft::{Wrong, draft};
use std::test::Fail;

// What may be wrong, each once.
static WRONGS: [Wrong; 48] = [
    Wrong::TopStandsInAScope,
    Wrong::ScopeStandsInItself,
    Wrong::SignalOfNoSuchScope,
    Wrong::SignalOfNoBits,
    Wrong::SignalOf129Bits,
    Wrong::ClockOfTwoBits,
    Wrong::KeptBitsBeyondTheSignal,
    Wrong::InputIsNoSuchSignal,
    Wrong::InputIsTheClock,
    Wrong::InputOfAnotherNumber,
    Wrong::DrivenPartOfNoSuchSignal,
    Wrong::DrivenPartBeyondItsSignal,
    Wrong::DrivenPartOfNoSuchNode,
    Wrong::DrivenPartOfAWiderNode,
    Wrong::DrivenPartOnAnInput,
    Wrong::DrivenPartOnTheClock,
    Wrong::DrivenPartsShareABit,
    Wrong::DrivenPartsOutOfOrder,
    Wrong::DrivenPartOnARegister,
    Wrong::RegisterPartBeyondItsSignal,
    Wrong::RegisterPartOfNoSuchBlock,
    Wrong::RegisterPartOfAWiderNode,
    Wrong::RegisterPartsShareABit,
    Wrong::InitialValueBeyondItsPart,
    Wrong::MemoryOfNoBits,
    Wrong::MemoryWithAWordLess,
    Wrong::WordBeyondTheMemory,
    Wrong::WriterIsNoSuchBlock,
    Wrong::WriteByAnotherBlock,
    Wrong::WriteToNoSuchMemory,
    Wrong::WriteUnderNoSuchNode,
    Wrong::WriteOfAWiderNode,
    Wrong::ConstantBeyondItsWidth,
    Wrong::NodeReadsItself,
    Wrong::NodeReadsAHigherOne,
    Wrong::NodeReadsBeyondASignal,
    Wrong::NodeReadsNoSuchMemory,
    Wrong::ConcatOfAnotherWidth,
    Wrong::OperandsOfTwoWidths,
    Wrong::ReductionOfTwoBits,
    Wrong::ExtensionToFewerBits,
    Wrong::CutToMoreBits,
    Wrong::InsertOfAnotherWidth,
    Wrong::ChoiceOfAnotherWidth,
    Wrong::KeptNodeOfAnotherWidth,
    Wrong::BlockOfNoSuchScope,
    Wrong::EventUnderNoSuchNode,
    Wrong::ShownNodeIsNotThere,
];

#[test]
fn a_sound_draft_fits(rt: HostRuntime) -> Result<(), Fail> {
    let draft = draft(rt.alloc(), Wrong::Nothing)?;
    assert!(rt; draft.fits());
    let flat = draft.close();
    assert_eq!(rt; flat.signal_count(), 7);
    assert_eq!(rt; flat.nodes().len(), 13);
    Ok(())
}

#[test]
fn a_draft_with_one_thing_wrong_does_not_fit(rt: HostRuntime) -> Result<(), Fail> {
    for wrong in WRONGS {
        let draft = draft(rt.alloc(), wrong)?;
        assert!(rt; !draft.fits(), "{wrong:?}");
    }
    Ok(())
}
