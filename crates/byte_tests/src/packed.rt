//! PackedU16 in all of its forms.
use read::ReadScope;
use woff2::PackedU16;

fn packed(bytes: &[u8]) -> Option<u16> {
    PackedU16::read(&mut ReadScope::new(bytes).ctxt()).ok()
}

#[test]
fn forms(rt: HostRuntime) {
    assert_eq!(rt; packed(&[0]), Some(0));
    assert_eq!(rt; packed(&[252]), Some(252));
    assert_eq!(rt; packed(&[255, 0]), Some(253));
    assert_eq!(rt; packed(&[0xff, 0xfd]), Some(506));
    assert_eq!(rt; packed(&[0xfe, 0x00]), Some(506));
    assert_eq!(rt; packed(&[0xfd, 0x01, 0xfa]), Some(506));
    assert_eq!(rt; packed(&[254, 255]), Some(761));
    assert_eq!(rt; packed(&[253, 255, 255]), Some(65535));
}

#[test]
fn one_byte_short(rt: HostRuntime) {
    assert_eq!(rt; packed(&[]), None);
    assert_eq!(rt; packed(&[255]), None);
    assert_eq!(rt; packed(&[254]), None);
    assert_eq!(rt; packed(&[253, 1]), None);
    let short = [253, 1];
    let mut ctxt = ReadScope::new(&short).ctxt();
    assert!(rt; PackedU16::read(&mut ctxt).is_err());
    assert_eq!(rt; ctxt.scope().data().len(), 2);
}
