use crate::helping::{NO_0, YES_0};
use evaluator::answer::EvaluatorFault;
use evaluator::outcomes::outcomes;
use laying::fault::RackFault;
use laying::open_rack::OpenRack;
use laying::pocket::PocketRack;
use orders::fault::OrderFault;
use orders::graded::Graded;
use orders::graded_position::GradedPosition;
use orders::grades::Grades;
use orders::order::Order;
use orders::position::Position;
use racks::rack::Rack;
use std::test::Fail;

// "Matter 0" on one sheet, and "not matter 0" on the next.
fn contradiction() -> Result<PocketRack, RackFault> {
    let mut rack = PocketRack::new();
    rack.begin()?;
    rack.lay(YES_0)?;
    rack.begin()?;
    rack.lay(NO_0)?;
    Ok(rack)
}

fn graded(first: u8, second: u8) -> Result<Grades, OrderFault> {
    let mut grades = Grades::new();
    grades.set(&[first, second])?;
    Ok(grades)
}

// How many outcomes there are, and what the first place holds then, where a 9 was.
fn listed<R: Rack, O: Order>(rack: &R, order: &O) -> Result<(usize, u16), EvaluatorFault> {
    let mut list = [9; 2];
    let count = outcomes(rack, order, &mut list)?;
    Ok((count, list[0]))
}

#[test]
fn later_sheet_overrules(rt: HostRuntime) -> Result<(), Fail> {
    assert_eq!(rt; listed(&contradiction()?, &Position), Ok((1, 0)));
    Ok(())
}

#[test]
fn higher_grade_overrules(rt: HostRuntime) -> Result<(), Fail> {
    let rack = contradiction()?;
    let grades = graded(2, 1)?;
    assert_eq!(rt; listed(&rack, &Graded { grades }), Ok((1, 1)));
    assert_eq!(rt; listed(&rack, &GradedPosition { grades }), Ok((1, 1)));
    Ok(())
}

#[test]
fn equal_grades(rt: HostRuntime) -> Result<(), Fail> {
    let rack = contradiction()?;
    let grades = graded(1, 1)?;
    assert_eq!(rt; listed(&rack, &Graded { grades }), Ok((0, 9)));
    assert_eq!(rt; listed(&rack, &GradedPosition { grades }), Ok((1, 0)));
    Ok(())
}
