// Rings of each size, and what is none.
use crate::told::refusal_of;
use ring::Ring;
use std::test::Fail;
use task::refusal::Layer;
use task::source::TaskSource;

#[test]
fn rings_pass_the_value_on(rt: HostRuntime) {
    for n in [1, 2, 32] {
        let mut ring = Ring::new();
        assert!(rt; ring.set(n).is_ok());
        assert_eq!(rt; (ring.variables(), ring.operators()), (n, n));
        for o in 0..n {
            assert_eq!(rt;
                (ring.needed(o, o), ring.made(o, (o + 1) % n)),
                (Some(1), Some(1))
            );
        }
        assert_eq!(rt;
            (ring.size(n - 1), ring.size(n), ring.needed(n, n)),
            (Some(2), None, None)
        );
        assert_eq!(rt;
            (ring.goal(0), ring.goal(1), ring.start(0)),
            (Some(1), None, Some(0))
        );
    }
}

#[test]
fn other_sizes_are_declined(rt: HostRuntime) -> Result<(), Fail> {
    for n in [0, 33, 65_535] {
        let mut ring = Ring::new();
        assert!(rt; ring.set(5).is_ok());
        let refusal = refusal_of(ring.set(n))?;
        assert_eq!(rt;
            (refusal.number, refusal.place.0, refusal.place.1),
            (20, n, 0)
        );
        assert!(rt; refusal.layer == Layer::Reduction);
        assert_eq!(rt; ring.variables(), 5);
    }
    Ok(())
}
