//! A dialog over a fresh image.
use crate::runs::formatted;
use edr_banks::Banks;
use edr_dialog::{Dialog, Fed, LONGEST_REPLY};
use std::test::Fail;

// The answer of a new dialog to one byte.
#[tactic(auto, unfolding(edr_dialog::specs::Replies::stand_of))]
fn first_answer(banks: &Banks, byte: u8, out: &mut [u8; LONGEST_REPLY]) -> Fed {
    Dialog::new(banks).feed(byte, out)
}

#[test]
fn a_kind_that_no_request_has_is_refused(rt: HostRuntime) -> Result<(), Fail> {
    let mut memory = formatted(rt.alloc(), 0)?;
    let banks = Banks::open(rt.alloc(), &mut memory)?;
    let mut out = [0; LONGEST_REPLY];
    assert_eq!(rt;
        first_answer(&banks, 7, &mut out),
        Fed::Refused { length: 6 }
    );
    assert!(rt; out.starts_with(&[255, 0, 3, 1, 0, 7]));
    Ok(())
}
