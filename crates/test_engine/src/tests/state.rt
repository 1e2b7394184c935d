//! The reasons of refusals, as texts and from their numbers.

use seq_state::Refusal;
use std::test::Fail;

#[test]
fn refusals_have_their_texts(rt: HostRuntime) -> Result<(), Fail> {
    let first = Refusal::NotOpen.to_string(rt.alloc())?;
    assert!(rt; first.as_str() == "1 NotOpen");
    let last = Refusal::OutFull.to_string(rt.alloc())?;
    assert!(rt; last.as_str() == "24 OutFull");
    Ok(())
}

#[test]
fn refusals_come_back_from_their_numbers(rt: HostRuntime) {
    for number in 0..=255u8 {
        let refusal = Refusal::from_number(number);
        let there = (1..=24).contains(&number);
        assert!(rt; refusal.is_some() == there);
    }
    assert!(rt; Refusal::from_number(14) == Some(Refusal::Cycle));
}
