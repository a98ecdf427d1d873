//! Laws of requests with a window.
//!
//! Each law is a promise.
ghost use Rattle.vm_laws.specs.WindowLaws.{LiesInWindow, WholeWindowIsNone, WholeWindowKeepsConflicts, KeptInWindow};

/// States that an allocated range lies in the window of its request, and that a window which does not
/// matter changes nothing: one that contains the space, or the range that is allocated without it.
#[tactic(auto, using(vm_addresses::proofs::Results::Conflicts::whole_conflict, vm_addresses::proofs::Results::WindowResults::inside, vm_addresses::proofs::Results::WindowResults::whole_window, vm_addresses::proofs::Results::WindowResults::kept_in_window))]
fn windows_restrict()
    ensures inside { LiesInWindow }
    ensures whole { WholeWindowIsNone }
    ensures conflicts { WholeWindowKeepsConflicts }
    ensures kept { KeptInWindow }
{}
