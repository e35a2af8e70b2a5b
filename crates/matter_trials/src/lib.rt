// Executed trials of readings, rulings and the listing of two racks.
#![tactic(auto)]

#[cfg(test)]
mod tests {
    use evaluator::answer::{EvaluatorFault, Reading, Ruling};
    use evaluator::matter::{reading, ruling};
    use evaluator::two::outcomes_of_two;
    use laying::fault::RackFault;
    use laying::open_rack::OpenRack;
    use laying::pocket::PocketRack;
    use orders::position::Position;
    use rules::record::Record;
    use rules::rule::Sign;
    use std::test::Fail;

    // A rack with one sheet of these rules.
    fn sheet(matters: u8, rules: &[Record]) -> Result<PocketRack, RackFault> {
        let mut rack = PocketRack::new();
        rack.set_up(matters)?;
        rack.begin()?;
        for rule in rules {
            rack.lay(*rule)?;
        }
        Ok(rack)
    }

    // "head if yes, no no"
    fn rule(head: u8, yes: u16, no: u16) -> Record {
        Record {
            head,
            sign: Sign::Yes.into(),
            yes,
            no,
        }
    }

    // "no head"
    fn no(head: u8) -> Record {
        Record {
            head,
            sign: Sign::No.into(),
            yes: 0,
            no: 0,
        }
    }

    #[test]
    fn either_or(rt: HostRuntime) -> Result<(), Fail> {
        let rack = sheet(2, &[rule(0, 0, 0b10), rule(1, 0, 0b01)])?;
        assert_eq!(rt; reading(&rack, &Position, 0), Ok(Reading::Undefined));
        assert_eq!(rt; ruling(&rack, &Position, 0), Ok(Ruling::Varies));
        assert_eq!(rt; reading(&rack, &Position, 2), Err(EvaluatorFault::NoMatter));
        assert_eq!(rt; ruling(&rack, &Position, 2), Err(EvaluatorFault::NoMatter));
        Ok(())
    }

    #[test]
    fn each_reading_and_ruling(rt: HostRuntime) -> Result<(), Fail> {
        let fact = sheet(2, &[rule(0, 0, 0)])?;
        assert_eq!(rt; reading(&fact, &Position, 0), Ok(Reading::True));
        assert_eq!(rt; reading(&fact, &Position, 1), Ok(Reading::False));
        assert_eq!(rt; ruling(&fact, &Position, 0), Ok(Ruling::Always));
        assert_eq!(rt; ruling(&fact, &Position, 1), Ok(Ruling::Never));
        let both = sheet(1, &[rule(0, 0, 0), no(0)])?;
        assert_eq!(rt; reading(&both, &Position, 0), Ok(Reading::Contradictory));
        assert_eq!(rt; ruling(&both, &Position, 0), Ok(Ruling::NoOutcome));
        Ok(())
    }

    // Seven pairs of matters that exclude one another, and a fact: 128 outcomes, and no list.
    #[test]
    fn rules_on_many_outcomes(rt: HostRuntime) -> Result<(), Fail> {
        let mut rack = sheet(16, &[rule(15, 0, 0)])?;
        for pair in 0..7 {
            let (low, high) = (1 << (2 * pair), 2 << (2 * pair));
            rack.lay(rule(2 * pair, 0, high))?;
            rack.lay(rule(2 * pair + 1, 0, low))?;
        }
        assert_eq!(rt; ruling(&rack, &Position, 3), Ok(Ruling::Varies));
        assert_eq!(rt; ruling(&rack, &Position, 14), Ok(Ruling::Never));
        assert_eq!(rt; ruling(&rack, &Position, 15), Ok(Ruling::Always));
        Ok(())
    }

    // "0 if 0" on one of two racks that are else the same.
    #[test]
    fn a_tautology_changes_no_list(rt: HostRuntime) -> Result<(), Fail> {
        let plain = sheet(2, &[rule(0, 0, 0b10), rule(1, 0, 0b01)])?;
        let more = sheet(2, &[rule(0, 0b01, 0), rule(0, 0, 0b10), rule(1, 0, 0b01)])?;
        let mut first = [9; 3];
        let mut second = [9; 3];
        let answers = outcomes_of_two(&plain, &more, &Position, &mut first, &mut second);
        assert_eq!(rt; answers, (Ok(2), Ok(2)));
        assert_eq!(rt; first, [1, 2, 9]);
        assert_eq!(rt; second, first);
        Ok(())
    }
}
