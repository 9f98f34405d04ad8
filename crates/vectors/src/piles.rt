// Leave-outs, joins and piles over the first card.
use crate::cards::WORDS;
use crate::told::number_and_place;
use card::Card;
use join::{Join, Pair};
use leave_out::{Keep, LeaveOut};
use reduction::fault::PutError;
use reduction::ground::Ground;
use reduction::interface::{Reduction, image_of};
use ring::Ring;
use stack::Stack;
use stack::layer::Layer;
use std::process::Abort;
use std::test::Fail;
use task::source::TaskSource;

fn first_card() -> Card<&'static [u16]> {
    let mut card = Card::new();
    let _ = card.read(&WORDS);
    card
}

fn pair(variable: usize, low: u16, high: u16) -> Pair {
    Pair {
        variable,
        low,
        high,
    }
}

#[test]
fn a_join_reads_two_values_as_one(rt: HostRuntime) {
    let mut top = Join::over(Ground::over(first_card()));
    assert_eq!(rt; (top.size(1), top.goal(1)), (Some(3), Some(2)));
    assert!(rt; top.set(pair(1, 0, 1)).is_ok());
    assert_eq!(rt;
        (top.size(0), top.size(1), top.goal(1)),
        (Some(2), Some(2), Some(1))
    );
    assert_eq!(rt;
        (top.needed(1, 1), top.made(1, 1), top.needed(2, 1)),
        (Some(0), Some(0), Some(0))
    );
    assert_eq!(rt;
        (top.image(1, 1), top.image(1, 2), top.image(1, 3)),
        (Some(0), Some(1), None)
    );
}

#[test]
fn a_leave_out_keeps_its_variables_alone(rt: HostRuntime) {
    let mut top = LeaveOut::over(Ground::over(first_card()));
    assert_eq!(rt; (top.size(0), top.needed(1, 0)), (Some(2), Some(0)));
    assert!(rt; top.set(Keep { mask: 2 }).is_ok());
    assert_eq!(rt;
        (top.size(0), top.size(1), top.size(2)),
        (Some(1), Some(3), None)
    );
    assert_eq!(rt;
        (top.needed(1, 0), top.needed(1, 1), top.made(0, 0)),
        (None, Some(0), None)
    );
    assert!(rt; top.set(Keep { mask: 1 }).is_ok());
    assert_eq!(rt;
        (top.size(0), top.size(1), top.goal(1)),
        (Some(2), Some(1), None)
    );
    assert_eq!(rt;
        (top.image(1, 2), top.image(0, 1), top.image(0, 2)),
        (Some(0), Some(1), None)
    );
}

#[test]
fn wrong_settings_are_declined(rt: HostRuntime) -> Result<(), Fail> {
    let mut few = LeaveOut::over(first_card());
    assert_eq!(rt; number_and_place(few.set(Keep { mask: 0 }))?, (10, 32));
    assert_eq!(rt; number_and_place(few.set(Keep { mask: 0b1101 }))?, (10, 2));
    assert_eq!(rt;
        number_and_place(few.set(Keep { mask: 1 << 31 }))?,
        (10, 31)
    );
    assert_eq!(rt; few.size(1), Some(3));
    let mut one = Join::over(few);
    assert_eq!(rt; number_and_place(one.set(pair(2, 0, 1)))?, (20, 2));
    assert_eq!(rt; number_and_place(one.set(pair(1, 1, 1)))?, (20, 1));
    assert_eq!(rt; number_and_place(one.set(pair(1, 1, 3)))?, (20, 1));
    assert_eq!(rt; one.size(1), Some(3));
    Ok(())
}

#[test]
fn a_mask_may_have_bit_31(rt: HostRuntime) {
    let mut ring = Ring::new();
    assert!(rt; ring.set(32).is_ok());
    let mut top = LeaveOut::over(ring);
    assert!(rt; top.set(Keep { mask: 1 << 31 }).is_ok());
    assert_eq!(rt;
        (top.size(30), top.size(31), top.made(30, 31)),
        (Some(1), Some(2), Some(1))
    );
}

fn alike<A: Reduction, B: Reduction>(rt: &impl Abort, a: &A, b: &B) {
    assert_eq!(rt;
        (a.variables(), a.operators()),
        (b.variables(), b.operators())
    );
    for v in 0..3 {
        assert_eq!(rt;
            (a.size(v), a.start(v), a.goal(v)),
            (b.size(v), b.start(v), b.goal(v))
        );
        for o in 0..4 {
            assert_eq!(rt;
                (a.needed(o, v), a.made(o, v)),
                (b.needed(o, v), b.made(o, v))
            );
        }
        for x in 0..4 {
            assert_eq!(rt; image_of(a, v, x), image_of(b, v, x));
        }
    }
}

#[test]
fn a_stack_is_the_pile_of_its_layers(rt: HostRuntime) {
    let mut low = LeaveOut::over(Ground::over(first_card()));
    assert!(rt; low.set(Keep { mask: 3 }).is_ok());
    let mut middle = Join::over(low);
    assert!(rt; middle.set(pair(1, 0, 2)).is_ok());
    let mut top = LeaveOut::over(middle);
    assert!(rt; top.set(Keep { mask: 2 }).is_ok());
    let mut stack = Stack::with_layers(first_card(), Vec::new(rt.alloc()));
    assert!(rt; stack.put(Layer::Keep(Keep { mask: 3 })).is_ok());
    assert!(rt; stack.put(Layer::Join(pair(1, 0, 2))).is_ok());
    assert!(rt;
        matches!(
            stack.put(Layer::Join(pair(1, 0, 2))),
            Err(PutError::Declined(_))
        )
    );
    assert!(rt; stack.put(Layer::Keep(Keep { mask: 2 })).is_ok());
    alike(&rt, &top, &stack);
    assert_eq!(rt;
        (stack.size(1), stack.goal(1), stack.made(2, 1)),
        (Some(2), Some(0), Some(0))
    );
    assert_eq!(rt;
        (image_of(&stack, 1, 2), image_of(&stack, 0, 1)),
        (Some(0), Some(0))
    );
}
