//! Copies of devices.

use image::{Image, RamRange};
use msp430_chip::Device;
use std::test::Fail;

#[test]
fn copies_of_devices(rt: HostRuntime) -> Result<(), Fail> {
    let ram = RamRange {
        lo: 0x0200,
        hi: 0x02FF,
        mirror: Some((0x1000, 0x10FF)),
    };
    let image = Image::with_bytes(rt.alloc(), 0xFFFE, &[0x40])?;
    let copy = Device { image, ram }.copy(rt.alloc())?;
    let bytes = (copy.image.byte(0xFFFE), copy.image.byte(0xFFFF));
    assert_eq!(rt; (copy.ram, bytes), (ram, (Some(0x40), None)));
    Ok(())
}
