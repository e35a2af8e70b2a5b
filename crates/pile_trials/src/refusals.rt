use crate::helping::{BAD, NO_0, YES_0, filed, numbered};
use layers::amended::Amended;
use layers::withheld::Withheld;
use laying::open_rack::OpenRack;
use laying::pocket::PocketRack;
use racks::rack::Rack;
use rules::rule::{Rule, Shape, Sign};
use std::test::Fail;

#[test]
fn pocket_rack(rt: HostRuntime) {
    let mut rack = PocketRack::new();
    assert_eq!(rt; numbered(rack.set_up(0)), Err(3));
    assert_eq!(rt; numbered(rack.set_up(17)), Err(3));
    assert_eq!(rt; numbered(rack.set_up(2)), Ok(()));
    assert_eq!(rt; numbered(rack.withdraw()), Err(12));
    assert_eq!(rt; numbered(rack.lay(BAD)), Err(12));
    assert_eq!(rt; numbered(rack.begin()), Ok(()));
    assert_eq!(rt; numbered(rack.lay(BAD)), Err(13));
    assert_eq!(rt; (0..64).try_for_each(|_| numbered(rack.lay(YES_0))), Ok(()));
    assert_eq!(rt; numbered(rack.lay(BAD)), Err(13));
    assert_eq!(rt; numbered(rack.lay(YES_0)), Err(14));
    assert_eq!(rt; (0..31).try_for_each(|_| numbered(rack.begin())), Ok(()));
    assert_eq!(rt; numbered(rack.begin()), Err(11));
    assert_eq!(rt;
        rack.shape(),
        Shape {
            matters: 2,
            sheets: 32,
            rules: 64,
        }
    );
    assert_eq!(rt; numbered(rack.withdraw()), Ok(()));
    assert_eq!(rt;
        rack.shape(),
        Shape {
            matters: 2,
            sheets: 31,
            rules: 64,
        }
    );
}

// Two matters, and one sheet with the rule "matter 1".
const FILE: [u8; 11] = [1, 2, 1, 0, 6, 1, 1, 0, 0, 0, 0];

#[test]
fn pile_of_three_layers(rt: HostRuntime) -> Result<(), Fail> {
    let mut lower = Amended::new(filed(&FILE)?);
    assert_eq!(rt; numbered(lower.begin()), Ok(()));
    assert_eq!(rt; numbered(lower.lay(NO_0)), Ok(()));
    let mut pile = Amended::new(Withheld::new(lower, 0));
    assert_eq!(rt;
        pile.shape(),
        Shape {
            matters: 2,
            sheets: 2,
            rules: 1,
        }
    );
    assert_eq!(rt; numbered(pile.withdraw()), Err(12));
    assert_eq!(rt; numbered(pile.lay(BAD)), Err(12));
    assert_eq!(rt; numbered(pile.begin()), Ok(()));
    assert_eq!(rt; numbered(pile.lay(BAD)), Err(13));
    assert_eq!(rt; (0..32).try_for_each(|_| numbered(pile.lay(YES_0))), Ok(()));
    assert_eq!(rt; numbered(pile.lay(BAD)), Err(13));
    assert_eq!(rt; numbered(pile.lay(YES_0)), Err(14));
    assert_eq!(rt; (0..29).try_for_each(|_| numbered(pile.begin())), Ok(()));
    assert_eq!(rt; numbered(pile.begin()), Err(11));
    assert_eq!(rt;
        pile.shape(),
        Shape {
            matters: 2,
            sheets: 32,
            rules: 33,
        }
    );
    assert_eq!(rt; pile.read().len(), 33);
    assert_eq!(rt;
        pile.rule(0),
        Some(Rule {
            sheet: 1,
            head: 0,
            sign: Sign::No,
            yes: 0,
            no: 0,
        })
    );
    assert_eq!(rt;
        pile.rule(1),
        Some(Rule {
            sheet: 2,
            head: 0,
            sign: Sign::Yes,
            yes: 0,
            no: 0,
        })
    );
    assert_eq!(rt; pile.rule(33), None);
    Ok(())
}
