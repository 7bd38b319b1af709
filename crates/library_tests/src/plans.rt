// What a plan may be.
use library::plan::Plan;
use prints::polynomial::Polynomial;

// The number of the refusal, if the plan is refused.
fn refusal(k: usize, t: usize) -> Option<u8> {
    Plan::<Polynomial>::new(k, t)
        .err()
        .map(|refusal| u8::from(refusal.reason))
}

#[test]
fn k_is_1_to_64_and_then_t_is_k_to_256(rt: HostRuntime) {
    let cases = [
        (64, 256, None),
        (1, 1, None),
        (0, 5, Some(11)),
        (65, 256, Some(11)),
        (5, 4, Some(12)),
        (5, 257, Some(12)),
        (65, 300, Some(11)),
    ];
    for (k, t, number) in cases {
        assert_eq!(rt; refusal(k, t), number, "k {k}, t {t}");
    }
}
