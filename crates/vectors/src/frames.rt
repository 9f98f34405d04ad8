// Frames, codes and steps.
use crate::told::refusal_of;
use card::Card;
use frame::frame::Frame;
use ring::Ring;
use std::test::Fail;
use task::refusal::Layer;
use task::source::TaskSource;

#[test]
fn codes_of_the_largest_frame_come_back(rt: HostRuntime) {
    let words = [1, 3, 0, 0, 64, 64, 4, 0, 0, 0, 0];
    let mut card = Card::new();
    assert!(rt; card.read(&words).is_ok());
    let mut frame = Frame::least();
    assert!(rt; frame.set(&card, 7).is_ok());
    assert_eq!(rt; (frame.mask(), frame.size()), (7, 16_384));
    for c in 0..16_384 {
        let values = [frame.value(c, 0), frame.value(c, 1), frame.value(c, 2)];
        assert_eq!(rt; frame.code(&values), c);
    }
}

#[test]
fn what_is_no_frame_leaves_it_as_it_was(rt: HostRuntime) -> Result<(), Fail> {
    let words = [1, 3, 0, 0, 64, 64, 5, 0, 0, 0, 0];
    let mut card = Card::new();
    assert!(rt; card.read(&words).is_ok());
    let mut frame = Frame::least();
    assert!(rt; frame.set(&card, 6).is_ok());
    for (mask, number, place) in [(0, 10, 32), (8, 10, 3), (24, 10, 3), (7, 11, 2)] {
        let refusal = refusal_of(frame.set(&card, mask))?;
        assert_eq!(rt; (refusal.number, refusal.place.0), (number, place));
        assert!(rt; refusal.layer == Layer::Frame);
        assert_eq!(rt; (frame.mask(), frame.size()), (6, 320));
    }
    Ok(())
}

#[test]
fn operators_do_in_a_frame_what_they_do_in_the_projection(rt: HostRuntime) {
    let mut ring = Ring::new();
    assert!(rt; ring.set(4).is_ok());
    let mut frame = Frame::least();
    assert!(rt; frame.set(&ring, 11).is_ok());
    assert_eq!(rt; frame.code(&[1, 0, 1, 1]), 5);
    assert_eq!(rt;
        (frame.step(&ring, 0, 5), frame.step(&ring, 0, 4)),
        (Some(7), None)
    );
    // the second makes nothing in the frame, the third needs nothing in it
    assert_eq!(rt;
        (frame.step(&ring, 1, 2), frame.step(&ring, 2, 0)),
        (Some(2), Some(4))
    );
    assert!(rt; frame.meets_goal(&ring, 5) && !frame.meets_goal(&ring, 4));
    let mut inner = Frame::least();
    assert!(rt; inner.set(&ring, 10).is_ok());
    assert_eq!(rt; frame.code_inside(&inner, 5), 2);
}
