//! Laws: theorems about the definitions that the contract of `run` cites.
//!
//! Each law is the contract of a function that does nothing.
ghost use Rattle.vm_lines.specs.Laws.{OneText, HasReply, HasText};

/// Proves that an input has one output in which no line runs out of memory.
#[tactic(auto, using(crate::proofs::OneText::one_text))]
fn text_is_determined()
    ensures { OneText }
{}

/// Proves that each line has a reply in each state that is not out of memory. So each input has an
/// output in which no line runs out of memory.
#[tactic(auto, using(crate::proofs::SomeText::has_reply, crate::proofs::SomeText::has_text))]
fn each_input_has_a_text()
    ensures reply { HasReply }
    ensures text { HasText }
{}
