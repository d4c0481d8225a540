//! The laws are called, so they can be.
use crate::{answer_laws, cut_laws, gain_laws, worked_needs};
use fx_steps::StepRefusal;
use std::process::Abort;
use std::test::Fail;

#[test]
fn a_line_can_be_too_big(rt: HostRuntime) -> Result<(), Fail> {
    answer_laws();
    cut_laws();
    gain_laws();
    worked_needs();
    assert_eq!(rt; StepRefusal::TooBig.word(), "toobig");
    Ok(())
}
