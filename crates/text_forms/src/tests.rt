//! Each form written once, with ample memory.

use crate::{push_decimal, push_hex_line, push_port_addr, push_spaced, push_spaced_line};
use node_table::{ClientId, PortAddr, PortNo};
use std::test::Fail;

#[test]
fn writes_numbers(rt: HostRuntime) -> Result<(), Fail> {
    let mut text = Vec::from_slice(rt.alloc(), b"from ")?;
    push_decimal(&mut text, 0)?;
    text.extend_from_slice(b" to ")?;
    push_decimal(&mut text, u64::MAX)?;
    assert!(rt; text.as_slice() == b"from 0 to 18446744073709551615".as_slice());
    Ok(())
}

#[test]
fn writes_bytes(rt: HostRuntime) -> Result<(), Fail> {
    let mut text = Vec::from_slice(rt.alloc(), b"written")?;
    push_spaced(&mut text, &[0x90, 0x0C, 0xAF])?;
    text.push(b'\n')?;
    push_hex_line(&mut text, &[0xF0, 0x7D, 0xF7])?;
    push_hex_line(&mut text, &[])?;
    assert!(rt; text.as_slice() == b"written 90 0C AF\nF0 7D F7\n\n".as_slice());
    Ok(())
}

/// One, two and more than three bytes take ways of their own, and so does a text without room.
#[test]
fn writes_bytes_of_each_count(rt: HostRuntime) -> Result<(), Fail> {
    let mut text = Vec::new(rt.alloc());
    push_hex_line(&mut text, &[0xF8])?;
    push_spaced_line(&mut text, &[0xFE])?;
    push_hex_line(&mut text, &[0xC5, 0x07])?;
    push_spaced_line(&mut text, &[0xD0, 0x40])?;
    push_hex_line(&mut text, &[0xF0, 0x01, 0x23, 0x45, 0x67, 0xF7])?;
    push_spaced_line(&mut text, &[0x89, 0xAB, 0xCD, 0xEF, 0xF7])?;
    push_spaced_line(&mut text, &[0x90, 0x3C, 0x40])?;
    assert!(rt;
        text.as_slice()
            == b"F8\n FE\nC5 07\n D0 40\nF0 01 23 45 67 F7\n 89 AB CD EF F7\n 90 3C 40\n".as_slice()
    );
    Ok(())
}

#[test]
fn writes_addresses(rt: HostRuntime) -> Result<(), Fail> {
    let mut text = Vec::new(rt.alloc());
    if let (Some(client), Some(port)) = (ClientId::new(191), PortNo::new(15)) {
        push_port_addr(&mut text, &PortAddr { client, port })?;
    }
    assert!(rt; text.as_slice() == b"191:p15".as_slice());
    Ok(())
}
