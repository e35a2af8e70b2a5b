use crate::helping::{NO_0, filed, numbered};
use layers::amended::Amended;
use laying::open_rack::OpenRack;
use racks::rack::Rack;
use std::test::Fail;

// 225 rules below leave 31 of 256.
#[test]
fn rules_in_all(rt: HostRuntime) -> Result<(), Fail> {
    let mut bytes = [0; 1355];
    bytes[..5].copy_from_slice(&[1, 1, 1, 5, 70]);
    let mut rack = Amended::new(filed(&bytes)?);
    assert_eq!(rt; rack.shape().rules, 225);
    assert_eq!(rt; numbered(rack.begin()), Ok(()));
    assert_eq!(rt; (0..31).try_for_each(|_| numbered(rack.lay(NO_0))), Ok(()));
    assert_eq!(rt; numbered(rack.lay(NO_0)), Err(14));
    assert_eq!(rt; rack.read().len(), 256);
    let mut full = Amended::new(rack);
    assert_eq!(rt; numbered(full.begin()), Ok(()));
    assert_eq!(rt; numbered(full.lay(NO_0)), Err(14));
    Ok(())
}

// 31 sheets below leave one of 32.
#[test]
fn sheets_in_all(rt: HostRuntime) -> Result<(), Fail> {
    let mut bytes = [0; 65];
    bytes[..3].copy_from_slice(&[1, 1, 31]);
    let mut rack = Amended::new(filed(&bytes)?);
    assert_eq!(rt; rack.shape().sheets, 31);
    assert_eq!(rt; numbered(rack.begin()), Ok(()));
    assert_eq!(rt; numbered(rack.begin()), Err(11));
    assert_eq!(rt; numbered(rack.withdraw()), Ok(()));
    assert_eq!(rt; numbered(rack.withdraw()), Err(12));
    Ok(())
}
