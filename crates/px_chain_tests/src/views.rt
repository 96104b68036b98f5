use px_chain::{SlotView, visible};
use px_model::Standing;

const fn view(slot: u32, xn: u64, standing: Standing) -> SlotView {
    SlotView { slot, xn, standing }
}

#[test]
fn a_reader_sees_its_own_and_what_was_done(rt: HostRuntime) {
    let chain = [
        view(8, 14, Standing::Open),
        view(3, 13, Standing::RolledBack),
        view(5, 12, Standing::Committed(2)),
        view(1, 11, Standing::Committed(0)),
        view(2, 4, Standing::Before),
    ];
    for (own, snapshot, seen) in [
        (14, 0, Some(8)),
        (13, 0, Some(3)),
        (15, 3, Some(5)),
        (15, 2, Some(1)),
        (15, 1, Some(1)),
        (15, 0, Some(2)),
    ] {
        assert_eq!(rt; visible(chain.as_slice(), own, snapshot), seen);
    }
    assert_eq!(rt; visible(&chain[..4], 15, 0), None);
    assert_eq!(rt; visible(&[], 15, 9), None);
}
