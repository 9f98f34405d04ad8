// Numbers of frames.
use numbers::number::{all_variables, frame_after, frame_count, frame_of, number_of};
use std::test::Fail;
use task::mask::contains;

#[test]
fn frames_come_in_the_order_of_their_lists(rt: HostRuntime) {
    // {0, 1, 2} {0, 1, 3} {0, 2, 3} {1, 2, 3}, and {0, 3} before {1, 2}
    assert_eq!(rt;
        (
            number_of(15, 7),
            number_of(15, 11),
            number_of(15, 13),
            number_of(15, 14),
        ),
        (Some(0), Some(1), Some(2), Some(3))
    );
    assert_eq!(rt; (number_of(15, 9), number_of(15, 6)), (Some(2), Some(3)));
    assert_eq!(rt; (number_of(7, 9), frame_of(15, 3, 4)), (None, None));
    // over the candidates 1, 4 and 5 alone
    assert_eq!(rt;
        (frame_of(50, 2, 0), frame_of(50, 2, 1), frame_of(50, 2, 2)),
        (Some(18), Some(34), Some(48))
    );
}

fn members(f: u32) -> usize {
    (0..6).filter(|v| contains(f, *v)).count()
}

// Of two sets of one size, that with the lowest variable that only one of them has comes first.
fn comes_before(g: u32, f: u32) -> bool {
    (0..6)
        .find(|v| contains(g, *v) != contains(f, *v))
        .is_some_and(|v| contains(g, v))
}

#[test]
fn a_number_tells_how_many_frames_come_before(rt: HostRuntime) -> Result<(), Fail> {
    for all in [1, 3, 7, 15, 31, 63] {
        for f in 1..all + 1 {
            let before = (1..all + 1).filter(|g| members(*g) == members(f) && comes_before(*g, f));
            let number = u32::try_from(before.count())?;
            assert_eq!(rt; number_of(all, f), Some(number));
            assert_eq!(rt; frame_of(all, members(f), number), Some(f));
        }
    }
    Ok(())
}

#[test]
fn six_of_32_variables_have_906192_frames(rt: HostRuntime) {
    let all = 4_294_967_295;
    let top = 4_227_858_432;
    assert_eq!(rt;
        (frame_of(all, 6, 906_191), frame_of(all, 6, 906_192)),
        (Some(top), None)
    );
    assert_eq!(rt;
        (number_of(all, top), frame_after(all, top)),
        (Some(906_191), None)
    );
}

#[test]
fn all_variables_are_32_at_most(rt: HostRuntime) {
    assert_eq!(rt;
        (all_variables(0), all_variables(1), all_variables(6)),
        (0, 1, 63)
    );
    assert_eq!(rt;
        (all_variables(31), all_variables(32), all_variables(33)),
        (2_147_483_647, 4_294_967_295, 4_294_967_295)
    );
    assert_eq!(rt; frame_count(all_variables(32), 6), 906_192);
}

#[test]
fn frames_are_counted(rt: HostRuntime) -> Result<(), Fail> {
    for all in [1, 3, 7, 15, 31, 63] {
        for f in 1..all + 1 {
            let alike = (1..all + 1).filter(|g| members(*g) == members(f));
            let count = u32::try_from(alike.count())?;
            assert_eq!(rt; frame_count(all, members(f)), count);
        }
    }
    Ok(())
}
