//! Laws over the definitions.

ghost use Rattle.pm_cutter.specs.CuttingLaws.{CuttingIsSteady};
ghost use Rattle.pm_cutter.specs.Splitting.{CutIsSplitting};

/// What is finished stays, whatever follows; the end finishes one sentence more at most, and then nothing is left; the
/// sentences stand one behind another.
pub fn cutting_is_steady()
    ensures { CuttingIsSteady }
{}

/// Every text splits into the sentences that are cut and a rest, and into no other sentences; the end finds nothing left
/// where the rest is empty, and there alone; what is finished is what is cut where a byte follows that is no blank.
pub fn cut_is_splitting()
    ensures { CutIsSplitting }
{}
