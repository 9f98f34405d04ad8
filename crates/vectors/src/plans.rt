// Plans of the first card, and lists that are none.
use crate::cards::WORDS;
use card::Card;
use std::process::Abort;
use std::test::Fail;
use task::fault::PlanFault;
use task::plan::check_plan;

fn check_list(rt: &impl Abort, operators: &[u16], answer: Result<usize, PlanFault>) {
    let mut card = Card::new();
    assert!(rt; card.read(&WORDS).is_ok());
    assert_eq!(rt; check_plan(&card, operators), answer);
}

#[test]
fn plans_are_accepted_and_others_declined(rt: HostRuntime) {
    check_list(&rt, &[1, 0, 2], Ok(3));
    check_list(&rt, &[0, 1], Err(PlanFault::DoesNotApply(1)));
    check_list(&rt, &[1], Err(PlanFault::MissesGoal(1)));
    check_list(&rt, &[], Err(PlanFault::MissesGoal(1)));
    check_list(&rt, &[2, 2, 3], Err(PlanFault::NoSuchOperator(2)));
}

#[test]
fn a_list_is_too_long_before_its_operators_count(rt: HostRuntime) -> Result<(), Fail> {
    let mut operators = vec![in rt.alloc(); 9; 16_383]?;
    check_list(&rt, operators.as_slice(), Err(PlanFault::NoSuchOperator(0)));
    operators.push(9)?;
    check_list(&rt, operators.as_slice(), Err(PlanFault::TooLong));
    Ok(())
}
