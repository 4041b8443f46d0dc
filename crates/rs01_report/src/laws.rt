//! What holds of printed lists.

ghost use Rattle.rs01_report.specs.Maximal.{RunsAreMaximal, RunsKeepTheList};

/// The runs that a list is printed by have its numbers in their order, and no two of them that
/// follow each other can be joined.
pub fn runs_are_maximal()
    ensures same_numbers { RunsKeepTheList }
    ensures maximal { RunsAreMaximal }
{}
