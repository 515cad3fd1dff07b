use std::test::Fail;
use text_digits::{push_decimal, push_field, push_hex};

/// Numbers of three widths behind one another, and bytes.
#[test]
fn digits(rt: HostRuntime) -> Result<(), Fail> {
    let mut text = Vec::new(rt.alloc());
    push_decimal(&mut text, 4_294_967_296u64)?;
    push_field(&mut text, b" port ", 65_535u16)?;
    push_hex(&mut text, &[0, 10, 255])?;
    push_field(&mut text, b" none ", 0u32)?;
    assert_eq!(rt;
        text.as_slice(),
        b"4294967296 port 65535000aff none 0".as_slice()
    );
    Ok(())
}
