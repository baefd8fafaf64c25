//! Bitmaps.
use woff2::BitSlice;

#[test]
fn highest_first(rt: HostRuntime) {
    let bytes = [0x80, 0x01];
    let bits = BitSlice::new(&bytes);
    for i in 0..16 {
        assert_eq!(rt; bits.get(i), Some(i == 0 || i == 15));
    }
    assert_eq!(rt; bits.get(16), None);
    assert_eq!(rt; bits.get(usize::MAX), None);
    assert_eq!(rt; BitSlice::new(&[]).get(0), None);
}
